//! The sums over text files, and over binary files.
ghost use Rattle.std.specs.Prelude.{◌≡◌, MatchOption};
ghost use Rattle.lc_walk.specs.Classes.{ClassesFit, both_classes, classes_of, one_class};

use crate::tally::sums::Sums;
use crate::tally::tally_row::TallyRow;
use lc_census::Eol;

/// The sums over the files of each class. Files with a NUL byte are binary, and the others are text.
#[derive(Clone, Copy, Debug, Drop, PartialEq, Eq)]
pub struct ClassSums {
    /// The sums over the files without a NUL byte.
    pub text: Sums,
    /// The sums over the files with a NUL byte.
    pub binary: Sums,
}

impl ClassSums {
    fn of_row(row: &TallyRow) -> ClassSums
        ensures { result ≡ one_class row.now }
    {
        match row.eol {
            Eol::Nul => ClassSums {
                text: Sums::none(),
                binary: row.sums(),
            },
            _ => ClassSums {
                text: row.sums(),
                binary: Sums::none(),
            },
        }
    }

    /// Returns these sums with `more` added, or `None` if a sum does not fit its type.
    #[tactic(auto, using(crate::proofs::Classes::same_classes))]
    fn checked_add(self, more: ClassSums) -> Option<ClassSums>
        ensures { MatchOption result (ClassesFit (both_classes self more) → ⊥) (λ sums. sums ≡ both_classes self more) }
    {
        Some(ClassSums {
            text: self.text.checked_add(more.text)?,
            binary: self.binary.checked_add(more.binary)?,
        })
    }

    /// Adds up the rows of text files, and the rows of binary files. Returns `None` if a sum does not fit its type.
    pub fn of(rows: &[TallyRow]) -> Option<ClassSums>
        ensures { MatchOption result (ClassesFit (classes_of rows.now) → ⊥) (λ sums. sums ≡ classes_of rows.now) }
    {
        let mut sums = ClassSums {
            text: Sums::none(),
            binary: Sums::none(),
        };
        let mut rest = rows;
        'rows: while let [row, others @ ..] = rest {
            sums = sums.checked_add(ClassSums::of_row(row))?;
            rest = others;
        }
        Some(sums)
    }
}
