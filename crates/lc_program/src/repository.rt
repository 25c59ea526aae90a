//! The repository above a directory.

/// The repository that contains a directory. The directory is under the repository's top directory, and is not the top itself.
#[derive(Drop)]
pub struct Repository {
    /// A path of the repository's top directory, such as `..`. A command line can use this path.
    pub top: String,
    /// The path of the directory, relative to the repository's top.
    pub path: String,
}
