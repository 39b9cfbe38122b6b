use crate::file::File;

/// The file with its chosen class, and the classes that are reached from it.
#[derive(Drop)]
pub struct Named<'a> {
    pub file: File<'a>,
    pub chosen: usize,
    pub reached: Vec<usize>,
}
