//! The counts of the tickets that have a refusal or an end. They stand in the order of the tickets.

ghost use Rattle.std.specs.Prelude.{◌≡◌, ℕ, ◌+◌, ◌<◌, ◌≤◌, ◌^◌, false, IfOk, IfErr, vec_len, vec_capacity};
ghost use Rattle.unit_log.specs.Counts.{counts_in, after, IsRising, IsAt, IsGapFor};

use unit_law::LogEntry;

/// What a log says of one ticket.
#[derive(Clone, Copy)]
pub(crate) struct TicketCounts {
    pub(crate) ticket: u32,
    /// How many Refuse entries it has.
    pub(crate) refusals: usize,
    /// It has an End entry.
    pub(crate) ended: bool,
}

impl TicketCounts {
    /// Nothing is said of the ticket.
    fn empty(ticket: u32) -> TicketCounts
        ensures { result ≡ record { ticket = ticket; refusals = 0; ended = false } }
    {
        TicketCounts {
            ticket,
            refusals: 0,
            ended: false,
        }
    }
}

/// The counts of a ticket; empty ones where it has none.
pub(crate) fn read(counts: &[TicketCounts], ticket: u32) -> TicketCounts
    requires { IsRising counts.now }
    ensures { result ≡ counts_in counts.now ticket }
{
    match find(counts, ticket) {
        Ok(at) => counts[at],
        Err(_) => TicketCounts::empty(ticket),
    }
}

/// Counts an entry. It takes no memory.
///
/// Condition: there is room for the counts of one more ticket, and the counts don't overflow.
pub(crate) fn enter(counts: &mut Vec<TicketCounts>, e: LogEntry)
    requires rising { IsRising counts.old.items }
    requires room { vec_len counts.old < vec_capacity counts.old }
    requires fits { (t : ℕ) → (counts_in counts.old.items t).refusals + 1 < 2 ^ 64 }
    ensures rising { IsRising counts.new.items }
    ensures counted { (t : ℕ) → counts_in counts.new.items t ≡ after (counts_in counts.old.items t) e }
    ensures len { vec_len counts.new ≤ vec_len counts.old + 1 }
    ensures capacity { vec_capacity counts.old ≤ vec_capacity counts.new }
{
    match e {
        LogEntry::Refuse(ticket, _) => {
            let at = place(counts, ticket);
            counts[at].refusals += 1;
        }
        LogEntry::End(ticket) => {
            let at = place(counts, ticket);
            counts[at].ended = true;
        }
        LogEntry::Look(_) | LogEntry::Drop(..) | LogEntry::Clear | LogEntry::Sense(_) => {}
    }
}

/// Where the ticket's counts stand, after empty ones were put in where there were none.
fn place(counts: &mut Vec<TicketCounts>, ticket: u32) -> usize
    requires rising { IsRising counts.old.items }
    requires room { vec_len counts.old < vec_capacity counts.old }
    ensures rising { IsRising counts.new.items }
    ensures there { IsAt counts.new.items ticket result }
    ensures same { (t : ℕ) → counts_in counts.new.items t ≡ counts_in counts.old.items t }
    ensures len { vec_len counts.new ≤ vec_len counts.old + 1 }
    ensures capacity { vec_capacity counts.old ≤ vec_capacity counts.new }
{
    match find(counts, ticket) {
        Ok(at) => at,
        Err(at) => {
            counts.insert(at, TicketCounts::empty(ticket)).unwrap();
            at
        }
    }
}

/// Where the ticket's counts stand, or where they would go.
fn find(counts: &[TicketCounts], ticket: u32) -> Result<usize, usize>
    requires { IsRising counts.now }
    ensures found { IfOk result (IsAt counts.now ticket) }
    ensures absent { IfErr result (IsGapFor counts.now ticket) }
{
    counts.binary_search_by_key(&ticket, |counts| counts.ticket)
}
