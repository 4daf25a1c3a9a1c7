// The card library: every call and type that a validator names, and nothing else.
// A crate that uses it lists in crates.txt the crates that declare these types, too.
#![tactic(auto)]

// Why a call is refused, and what C is told of it.
pub use rules::{Answer, Reason, Refusal};

// Whether an image is accepted.
pub use image::Shape;
pub use verdict::check;

// Reading a card.
pub use chains::packed::Mark;
pub use readcard::{read_chain, read_directory, read_entry, read_shell, read_table};
pub use reads::{ChainSectors, Extent, Ticket};
pub use readticket::{fill, read_ticket, rest};

// C's structs of these reads.
pub use reads::{ChainRead, DirectoryRead, EntryRead, Filled, ShellRead, TableRead, TicketRead};

// Steps on a product, and which entries they touched.
pub use marks::mark;
pub use touched::touched;
pub use writes::{write_field, write_record};

// Records between values and bytes.
pub use directory::{
    Entry, EntryBytes, Head, HeadBytes, Tail, TailBytes, decode_entry, decode_head, decode_tail,
    encode_entry, encode_head, encode_tail,
};
pub use shell::{Shell, decode as decode_shell, encode as encode_shell};
pub use table::{Elements, Table, decode_table, encode_table};
pub use ticket::{
    Changed, Decoded, Encoded, Encoding, Header, HeaderBytes, Record, Value,
    decode as decode_ticket, decode_header, encode as encode_ticket, encode_header,
};

// Dates.
pub use dates::{Date, Dated, Stamped, date, stamp};
