//! Where a rule comes from: a file or the command line.

/// Where a rule that matches a path comes from: a file or the command line. The variants are in the order of precedence, the lowest first
/// (gitignore(5), DESCRIPTION).
#[derive(Debug, Clone, Copy, PartialEq, Eq)]
pub enum RuleSource {
    /// The file of `--exclude-from`, which holds for the whole tree.
    ExcludeFrom,
    /// The `.git/info/exclude` of a directory above the path. The number counts the segments of the directory's path. It is 0 in a walk,
    /// which reads only the `.git/info/exclude` of the top directory.
    InfoExclude(u32),
    /// The `.gitignore` of a directory above the path. The number counts the segments of the directory's path.
    Gitignore(u32),
    /// The patterns of `--exclude`, each as one line. They override the rules of every file.
    CommandLine,
}
