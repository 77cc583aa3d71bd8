ghost use Rattle.std.specs.Prelude.{◌≡◌, ◌≤◌, ◌<◌, ◌+◌, ◌-◌, ◌^◌, ◌&&◌, if◌then◌else◌};
ghost use Rattle.use_counts.specs.Held.{settled, use_settled, moved};
ghost use Rattle.use_counts.specs.NodeRule.{opens, links, carries, is_made, is_used, times};
ghost use Rattle.use_counts.specs.NodeRule.{after_lower, after_upper, with_claims, new_node};

/// What a node is, by its row.
#[derive(Clone, Copy)]
pub enum Kind {
    /// A name that a fault keeps from ever being available.
    Broken,
    /// A name that is never made. It is available where its device is present and the flag is set.
    Plain(bool),
    /// A VLAN, over one lower node.
    Vlan,
    /// A bridge, over its own ports. With the flag it is available without any.
    Bridge(bool),
}

/// A bridge over a port of its own, or a VLAN over its lower.
#[derive(Clone, Copy)]
pub struct Edge {
    /// The port, or the lower of the VLAN.
    pub lower: usize,
    /// The bridge, or the VLAN.
    pub upper: usize,
}

/// What the rows say of a node.
#[derive(Clone, Copy)]
pub struct Row {
    /// What it is.
    pub kind: Kind,
    /// From 1 to 8, and above the levels of the nodes under it.
    pub level: u8,
}

/// A node, with its answers and the counts that they follow from.
#[derive(Clone, Copy)]
pub struct Node {
    pub kind: Kind,
    pub level: u8,
    /// Its place in the order of VLANs and bridges, from 1 on, or 0.
    pub rank: usize,
    pub present: bool,
    pub carrier: bool,
    pub claims: u32,
    pub available: bool,
    pub link: bool,
    pub used: bool,
    /// The available nodes right under it.
    pub open_lowers: u32,
    /// The nodes right under it that have link.
    pub linked_lowers: u32,
    /// Its claims and the used nodes right above it.
    pub demand: u32,
    /// A count of lower nodes has moved since availability and link were computed.
    pub stale: bool,
    /// The demand may have moved since the use was computed.
    pub use_stale: bool,
}

/// How a node moved, as the nodes above it see it.
#[derive(Clone, Copy)]
pub struct Change {
    pub was_available: bool,
    pub now_available: bool,
    pub had_link: bool,
    pub has_link: bool,
}

impl Kind {
    /// Whether it is a VLAN or a bridge.
    pub fn is_made(&self) -> bool
        ensures { result ≡ is_made self.now }
    {
        matches!(self, Kind::Vlan | Kind::Bridge(_))
    }
}

impl Node {
    /// An absent node without claims. A VLAN or bridge waits to be computed.
    pub fn new(row: Row, rank: usize) -> Node
        ensures { result ≡ new_node rank row }
    {
        Node {
            kind: row.kind,
            level: row.level,
            rank,
            present: false,
            carrier: false,
            claims: 0,
            available: false,
            link: false,
            used: false,
            open_lowers: 0,
            linked_lowers: 0,
            demand: 0,
            stale: rank > 0,
            use_stale: false,
        }
    }

    /// Availability by the counts.
    #[tactic(auto, unfolding(crate::specs::NodeRule::opens))]
    pub fn opens(&self) -> bool
        ensures { result ≡ opens self.now.kind self.now.present self.now.open_lowers }
    {
        match self.kind {
            Kind::Broken => false,
            Kind::Plain(sound) => self.present && sound,
            Kind::Vlan => !self.present && self.open_lowers > 0,
            Kind::Bridge(empty) => !self.present && (empty || self.open_lowers > 0),
        }
    }

    /// Link by the counts.
    #[tactic(auto, unfolding(crate::specs::NodeRule::links))]
    pub fn links(&self, available: bool) -> bool
        ensures { result ≡ links self.now.kind available (carries self.now) self.now.linked_lowers }
    {
        match self.kind {
            Kind::Broken => false,
            Kind::Plain(_) => self.present && self.carrier,
            Kind::Vlan | Kind::Bridge(_) => available && self.linked_lowers > 0,
        }
    }

    /// The node once a node right under it has moved.
    pub fn after_lower(self, change: Change) -> Node
        requires ready_before { times change.was_available 1 ≤ self.open_lowers }
        requires linked_before { times change.had_link 1 ≤ self.linked_lowers }
        requires ready_fits { self.open_lowers + 1 < 2 ^ 32 }
        requires linked_fits { self.linked_lowers + 1 < 2 ^ 32 }
        ensures { result ≡ after_lower change self 1 }
    {
        Node {
            open_lowers: self.open_lowers + u32::from(change.now_available)
                - u32::from(change.was_available),
            linked_lowers: self.linked_lowers + u32::from(change.has_link)
                - u32::from(change.had_link),
            stale: true,
            ..self
        }
    }

    /// The node with availability and link computed anew, and its use too where it is not made.
    pub fn settled(self, is_made: bool) -> Node
        ensures { result ≡ settled is_made self }
    {
        let available = self.opens();
        Node {
            available,
            link: self.links(available),
            used: if is_made {
                self.used
            } else {
                available && self.demand > 0
            },
            stale: false,
            use_stale: self.use_stale || is_made,
            ..self
        }
    }

    /// The node once the use of a node right above it has changed.
    pub fn after_upper(self, was: bool, now: bool, is_made: bool) -> Node
        requires before { times was 1 ≤ self.demand }
        requires fits { self.demand + 1 < 2 ^ 32 }
        ensures { result ≡ after_upper was now is_made self 1 }
    {
        let demand = self.demand + u32::from(now) - u32::from(was);
        Node {
            demand,
            used: if is_made {
                self.used
            } else {
                self.available && demand > 0
            },
            use_stale: self.use_stale || is_made,
            ..self
        }
    }

    /// The node with its use computed anew.
    pub fn use_settled(self) -> Node
        ensures { result ≡ use_settled self }
    {
        Node {
            used: self.available && self.demand > 0,
            use_stale: false,
            ..self
        }
    }

    /// The node with this many claims.
    pub fn with_claims(self, claims: u32, is_made: bool) -> Node
        requires before { self.claims ≤ self.demand }
        requires fits { self.demand + claims < 2 ^ 32 }
        ensures { result ≡ with_claims claims is_made self }
    {
        let demand = self.demand + claims - self.claims;
        Node {
            claims,
            demand,
            used: if is_made {
                self.used
            } else {
                self.available && demand > 0
            },
            use_stale: self.use_stale || is_made,
            ..self
        }
    }

    /// The demand of an available node, else 0.
    pub fn users(&self) -> u32
        ensures { result ≡ (if self.now.available then self.now.demand else 0) }
    {
        if self.available { self.demand } else { 0 }
    }

    /// Whether availability or link differ between the two.
    pub fn has_moved(&self, now: &Node) -> bool
        ensures { result ≡ moved self.now now.now }
    {
        self.available != now.available || self.link != now.link
    }
}
