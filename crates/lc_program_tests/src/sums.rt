//! Tests of sums that do not fit their types.

use lc_census::Eol;
use lc_reports::JoinFault;
use lc_rows::shown_rows;
use lc_rules::TextState;
use lc_sheet::Columns;
use lc_walk::TallyRow;
use std::process::Abort;
use std::test::Fail;

fn row_of_files(eol: Eol, files: u64) -> TallyRow {
    TallyRow {
        ext: None,
        text: TextState::Unspecified,
        eol,
        files,
        lines: 0,
        blank: 0,
        bytes: 0,
    }
}

#[test]
fn sums_that_overflow_are_an_error(rt: HostRuntime) -> Result<(), Fail> {
    let rows = [
        row_of_files(Eol::Lf, u64::MAX),
        row_of_files(Eol::CrLf, u64::MAX),
    ];
    let all = shown_rows(rt.alloc(), &rows, &[], Columns::ALL, None)?;
    assert!(rt; all.len() == 2);
    let by = Columns {
        eol: false,
        ..Columns::ALL
    };
    assert!(rt; shown_rows(rt.alloc(), &rows, &[], by, None).is_err());
    let text = format!(in rt.alloc(); "{}, {}", JoinFault::Memory, JoinFault::TooLarge)?;
    assert!(rt; text.as_str() == "out of memory, sums too large");
    Ok(())
}
