//! The extensions of files' names.
ghost use Rattle.std.specs.Prelude.{◌≡◌, option_map};
ghost use Rattle.lc_walk.specs.Extension.{extension_of};

/// Returns the bytes of a name after its last dot. It returns `None` for a name without a dot, and for a name whose last dot is its first
/// or its last byte. The time is linear in the name's length, and no memory is allocated.
///
/// ```
/// assert_eq!(extension(b"a.tar.gz"), Some(b"gz"));
/// assert_eq!(extension(b".gitignore"), None);
/// ```
pub fn extension(name: &[u8]) -> Option<&[u8]>
    ensures { option_map (λ s. s.now) result ≡ extension_of name.now }
{
    let (_, rest) = name.split_first()?;
    let mut found: Option<&[u8]> = None;
    for (i, byte) in rest.iter().enumerate() {
        if *byte == b'.' {
            found = Some(&rest[i + 1..]);
        }
    }
    match found {
        Some([]) => None,
        other => other,
    }
}
