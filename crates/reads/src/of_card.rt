// C's structs of the reads of the whole card. Of a refused read C is told zeros, by name in the definitions (`no_elements`): so they stand in full,
// and no `Default` is derived.
ghost use Rattle.std.specs.Prelude.{◌≡◌};
ghost use Rattle.reads.specs.Given.{directory_given, shell_given, table_given};

use crate::{DirectoryRead, ShellRead, TableRead, told};
use rules::{Answer, Refusal};
use table::Table;

impl From<Result<[u64; 16], Refusal>> for ShellRead {
    ghost from_gives = { λ r s. s ≡ shell_given r };

    fn from(read: Result<[u64; 16], Refusal>) -> ShellRead {
        let Answer { number, entry } = told(read);
        let values = read.unwrap_or([0; 16]);
        ShellRead {
            number,
            entry,
            values,
        }
    }
}

impl From<Result<[u64; 7], Refusal>> for DirectoryRead {
    ghost from_gives = { λ r s. s ≡ directory_given r };

    fn from(read: Result<[u64; 7], Refusal>) -> DirectoryRead {
        let Answer { number, entry } = told(read);
        let values = read.unwrap_or([0; 7]);
        DirectoryRead {
            number,
            entry,
            values,
        }
    }
}

impl From<Result<Table, Refusal>> for TableRead {
    ghost from_gives = { λ r s. s ≡ table_given r };

    fn from(read: Result<Table, Refusal>) -> TableRead {
        let Answer { number, entry } = told(read);
        let Table { count, elements } = read.unwrap_or(Table {
            count: 0,
            elements: [0; 252],
        });
        TableRead {
            number,
            entry,
            count,
            elements,
        }
    }
}
