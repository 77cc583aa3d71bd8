use plane_io::Text;

/// What a path names a section by.
#[derive(Drop)]
pub enum SectionRef {
    /// Its name.
    Name(Text),
    /// Its place among the sections of its type: from 0, or from -1 backwards, -1 being the last
    /// one.
    Place { kind: Text, index: i32 },
}

/// A path: a package, and perhaps a section of it, and perhaps an option of that.
#[derive(Drop)]
pub struct Path {
    pub package: Text,
    pub section: Option<SectionRef>,
    pub option: Option<Text>,
}
