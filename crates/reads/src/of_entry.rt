// C's structs of the reads of one entry and its chain. Of a refused read C is told zeros, by name in the definitions (`no_sectors`): so they stand in full,
// and no `Default` is derived.
ghost use Rattle.std.specs.Prelude.{◌≡◌};
ghost use Rattle.reads.specs.Given.{chain_given, entry_given};

use crate::{ChainRead, ChainSectors, EntryRead, told};
use chains::packed::Mark;
use rules::{Answer, Refusal};

impl From<Result<[u64; 7], Refusal>> for EntryRead {
    ghost from_gives = { λ r s. s ≡ entry_given r };

    fn from(read: Result<[u64; 7], Refusal>) -> EntryRead {
        let Answer { number, entry } = told(read);
        let values = read.unwrap_or([0; 7]);
        EntryRead {
            number,
            entry,
            values,
        }
    }
}

impl From<Result<ChainSectors, Refusal>> for ChainRead {
    ghost from_gives = { λ r s. s ≡ chain_given r };

    fn from(read: Result<ChainSectors, Refusal>) -> ChainRead {
        let Answer { number, entry } = told(read);
        let ChainSectors {
            mark,
            count,
            sectors,
        } = read.unwrap_or(ChainSectors {
            mark: Mark::Fresh,
            count: 0,
            sectors: [0; 252],
        });
        ChainRead {
            number,
            entry,
            mark: usize::from(mark.number()),
            count,
            sectors,
        }
    }
}
