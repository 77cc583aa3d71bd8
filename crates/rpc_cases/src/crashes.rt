use crate::bench::Bench;
use crate::desk::{Disks, open};
use crate::disks::bytes_of;
use plane_disk::MemDisk;
use plane_io::Text;
use rpc_session::Sessions;
use std::alloc::Global;

/// The bytes that a gate may have: closed, open, and one that was torn.
const GATES: [u8; 3] = [0, b'O', b'*'];

/// The place of the package `network` among the files of a disk.
const NETWORK: usize = 3;

/// What came of the same calls on some of the disks that a crash may leave.
#[derive(Drop)]
struct Outcome {
    disks: u64,
    told: Vec<u8>,
}

impl Bench {
    /// Keeps what the disk of the packages has.
    pub(crate) fn keep(&mut self) -> anyhow::Result<()> {
        let Disks { mut files, staged } = self.take_disks()?;
        self.kept = texts_of(self.alloc, &mut files)?;
        self.disks = Some(Disks { files, staged });
        Ok(())
    }

    /// Finds the disks that a crash may leave, and puts how many there are with each two gates.
    pub(crate) fn crash(&mut self, out: &mut Vec<u8>) -> anyhow::Result<()> {
        let disks = self.take_disks()?;
        let start = self.folder.texts(self.alloc)?;
        self.left = Vec::new(self.alloc);
        for first in GATES {
            for second in GATES {
                let before = self.left.len();
                let bodies = bodies(self.alloc, &self.kept)?;
                let networks = networks(self.alloc, &start, &self.kept)?;
                let image = with_file(self.alloc, &start, 0, &[first, second])?;
                find(
                    self.alloc,
                    &disks.files,
                    &image,
                    &bodies,
                    &networks,
                    &mut self.left,
                )?;
                put_gates(
                    self.alloc,
                    first,
                    second,
                    self.left.len().saturating_sub(before),
                    out,
                )?;
            }
        }
        self.disks = Some(disks);
        Ok(())
    }

    /// Opens each disk that a crash may leave, and plays the lines of the input on it.
    pub(crate) fn each_left(
        &mut self,
        now: u64,
        input: &[u8],
        out: &mut Vec<u8>,
    ) -> anyhow::Result<()> {
        let Disks { files, staged } = self.take_disks()?;
        let images = std::mem::replace(&mut self.left, Vec::new(self.alloc));
        let mut outcomes = Vec::new(self.alloc);
        for image in &images {
            let told = self.on_image(&files, image, now, input)?;
            count(&mut outcomes, told)?;
        }
        self.left = images;
        self.desk = None;
        self.disks = Some(Disks { files, staged });
        for outcome in &outcomes {
            let head = format!(in self.alloc; "{} disks:\n", outcome.disks)?;
            out.extend_from_slice(head.as_bytes())?;
            out.extend_from_slice(&outcome.told)?;
        }
        Ok(())
    }

    /// Opens what a crash leaves, and plays the lines of the input on it.
    fn on_image(
        &mut self,
        disk: &MemDisk,
        image: &[Text],
        now: u64,
        input: &[u8],
    ) -> anyhow::Result<Vec<u8>> {
        let mut told = Vec::new(self.alloc);
        if !disk.is_image(image) {
            return Err(anyhow::anyhow!("the disk has changed"));
        }
        let disks = Disks {
            files: disk.after_crash(image)?,
            staged: self.folder.staged(self.alloc)?,
        };
        self.sessions = Sessions::new(self.alloc)?;
        match open(self.alloc, disks, now)? {
            Ok(desk) => {
                self.desk = Some(desk);
                self.lines(input, &mut told)?;
            }
            Err(_) => told.extend_from_slice(b"not opened\n")?,
        }
        Ok(told)
    }
}

/// Puts how many disks have these gates, where one has.
fn put_gates(
    alloc: Global,
    first: u8,
    second: u8,
    disks: usize,
    out: &mut Vec<u8>,
) -> anyhow::Result<()> {
    if disks > 0 {
        let told = format!(in alloc; "{}{} {disks}\n", sign(first), sign(second))?;
        out.extend_from_slice(told.as_bytes())?;
    }
    Ok(())
}

/// A gate as a sign.
fn sign(gate: u8) -> char {
    match gate {
        0 => '0',
        b'O' => 'O',
        _ => '*',
    }
}

/// Counts what came of the calls on one more disk.
fn count(outcomes: &mut Vec<Outcome>, told: Vec<u8>) -> anyhow::Result<()> {
    for outcome in outcomes.iter_mut() {
        if outcome.told.as_slice() == told.as_slice() {
            outcome.disks = outcome.disks.saturating_add(1);
            return Ok(());
        }
    }
    outcomes.push(Outcome { disks: 1, told })?;
    Ok(())
}

/// What the files of a disk have.
fn texts_of(alloc: Global, disk: &mut MemDisk) -> anyhow::Result<Vec<Text>> {
    let mut texts = Vec::new(alloc);
    for file in 0..plane_disk::Disk::count(disk) {
        texts.push(bytes_of(alloc, disk, file)?)?;
    }
    Ok(texts)
}

/// What the snapshot may have: nothing, what was kept, a part that is torn, and another one.
fn bodies(alloc: Global, kept: &[Text]) -> anyhow::Result<Vec<Text>> {
    let mut bodies = Vec::new(alloc);
    bodies.push(Text::from_bytes(alloc, b"")?)?;
    if let Some(body) = kept.get(1) {
        bodies.push(body.copy()?)?;
    }
    bodies.push(Text::from_bytes(alloc, b"\x02\0\0")?)?;
    bodies.push(Text::from_bytes(alloc, b"*")?)?;
    Ok(bodies)
}

/// What the package `network` may have: its old text, what was kept, nothing, and a part.
fn networks(alloc: Global, start: &[Text], kept: &[Text]) -> anyhow::Result<Vec<Text>> {
    let mut networks = Vec::new(alloc);
    for texts in [start, kept] {
        if let Some(text) = texts.get(NETWORK) {
            networks.push(text.copy()?)?;
        }
    }
    networks.push(Text::from_bytes(alloc, b"")?)?;
    networks.push(Text::from_bytes(alloc, b"\nconfig")?)?;
    Ok(networks)
}

/// The same texts, with these bytes at a place.
fn with_file(
    alloc: Global,
    texts: &[Text],
    place: usize,
    bytes: &[u8],
) -> anyhow::Result<Vec<Text>> {
    let mut image = Vec::new(alloc);
    for text in texts {
        if image.len() == place {
            image.push(Text::from_bytes(alloc, bytes)?)?;
        } else {
            image.push(text.copy()?)?;
        }
    }
    Ok(image)
}

/// Puts each disk that a crash may leave, with one of these snapshots and one of these networks,
/// behind the others.
fn find(
    alloc: Global,
    disk: &MemDisk,
    gates: &[Text],
    bodies: &[Text],
    networks: &[Text],
    left: &mut Vec<Vec<Text>>,
) -> anyhow::Result<()> {
    for body in bodies {
        for network in networks {
            let image = with_file(alloc, gates, 1, body.as_bytes())?;
            let image = with_file(alloc, &image, NETWORK, network.as_bytes())?;
            if disk.is_image(&image) {
                left.push(image)?;
            }
        }
    }
    Ok(())
}
