// C's structs of the two calls that read a ticket. Of a refused read C is told zeros, by name in the definitions (`no_ticket`): so they stand in full,
// and no `Default` is derived.
ghost use Rattle.std.specs.Prelude.{◌≡◌};
ghost use Rattle.reads.specs.Given.{filled_given, ticket_given};

use crate::{Extent, Filled, Ticket, TicketRead, told};
use chains::packed::Mark;
use fields::MOST_VALUES;
use rules::{Answer, Refusal};

impl From<Result<Ticket, Refusal>> for TicketRead {
    ghost from_gives = { λ r s. s ≡ ticket_given r };

    fn from(read: Result<Ticket, Refusal>) -> TicketRead {
        let Answer { number, entry } = told(read);
        let Ticket {
            typ,
            header,
            values,
            end,
            mark,
            sectors,
        } = read.unwrap_or(Ticket {
            typ: 0,
            header: [0; 3],
            values: [0; MOST_VALUES],
            end: 0,
            mark: Mark::Fresh,
            sectors: 0,
        });
        TicketRead {
            number,
            entry,
            typ,
            header,
            values,
            end,
            mark: usize::from(mark.number()),
            sectors,
        }
    }
}

impl From<Result<Extent, Refusal>> for Filled {
    ghost from_gives = { λ r s. s ≡ filled_given r };

    fn from(read: Result<Extent, Refusal>) -> Filled {
        let Answer { number, entry } = told(read);
        let Extent { from, end } = read.unwrap_or(Extent { from: 0, end: 0 });
        Filled {
            number,
            entry,
            from,
            end,
        }
    }
}
