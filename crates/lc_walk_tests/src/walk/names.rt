//! Tests of the extensions of file names.

use lc_walk::extension;
use std::test::Fail;

const CASES: &[(&[u8], Option<&[u8]>)] = &[
    (b".gitignore", None),
    (b"x.", None),
    (b"Makefile", None),
    (b"", None),
    (b"a..", None),
    (b"a.tar.gz", Some(b"gz")),
    (b".a.b", Some(b"b")),
    (b"..a", Some(b"a")),
    (b"a.\xFF", Some(b"\xFF")),
];

#[test]
fn extensions(rt: HostRuntime) -> Result<(), Fail> {
    for (name, wanted) in CASES {
        assert!(rt; extension(name) == *wanted, "{name:?}");
    }
    Ok(())
}
