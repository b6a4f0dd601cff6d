// The way from the root of the modes to one of them.

/// The mode as a path through the declarations: the numbers of those that give its parts, of which the first `len`
/// count. If `other` is true the last of them stands for its OTHER name.
#[derive(Clone, Copy)]
pub struct Path {
    pub len: u32,
    pub decls: [u32; 16],
    pub other: bool,
}
