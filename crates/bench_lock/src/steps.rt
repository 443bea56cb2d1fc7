//! The atomic steps of a seat. It holds no slot but the machine's, and that one only while it has the turn.
ghost use Rattle.std.specs.Prelude.{◌≡◌, ℕ, ◌≢◌, ◌^◌, ◌<◌, true, false, [], ◌∷◌, ◌++◌, length, Some, IfSome, IfNone};
ghost use Rattle.bench_lock.specs.Log.{entry, added, entries_of, has, Begins};
ghost use Rattle.bench_lock.specs.Views.{IsSized, IsSameSeat, IsOwn, Rests, Takes, with_ticket, with_list, without_ticket, left_view, right_view, joined_view};
ghost use Rattle.bench_lock.specs.Stepped.{Stepped};

use crate::applied::Applied;
use crate::machine::Machine;
use crate::rule::{
    About, Compare, Count, Draw, HandOver, Know, Look, MachineView, Merge, Named, PassOn, Turns,
};
use std::sync::Wait;

/// The word from which tickets are drawn.
const TICKET: usize = 0;

/// The word that holds the ticket whose turn it is.
const SERVING: usize = 1;

/// The word that holds the length of the machine's list.
const COUNT: usize = 2;

/// A thread parks on the low 32 bits of a word.
const PARKED: u64 = 1 << 32;

pub(crate) type TableShared<M> = atomic_table::Shared<M, MachineView<M>, About<M>, Turns<M>>;

pub(crate) type TableSeat<M> = atomic_table::Seat<M, MachineView<M>>;

/// A step that the machine made: its reply, and the length of the list before and after it.
pub(crate) struct Made<Y> {
    pub(crate) reply: Y,
    pub(crate) before: u32,
    pub(crate) after: u32,
}

/// Draws the next ticket.
pub(crate) fn draw<M: Machine>(table: &TableShared<M>, seat: &mut TableSeat<M>) -> u64
    requires lock { (seat.old.table_id ≡ table.now.table_id) × IsSized table.now.table_id }
    requires rests { Rests seat.old.me.0 × (seat.old.me.1 ≡ []) }
    ensures { IsSameSeat seat.old seat.new × (seat.new.me ≡ (with_ticket result seat.old.me.0, [])) }
{
    table.fetch_add::<Draw<M>>(seat, TICKET, 1)
}

/// One look at SERVING. None where the ticket is served, and the seat then holds the machine; else what is served.
pub(crate) fn look<M: Machine>(
    table: &TableShared<M>,
    seat: &mut TableSeat<M>,
    ticket: u64,
) -> Option<u64>
    requires lock { (seat.old.table_id ≡ table.now.table_id) × IsSized table.now.table_id }
    requires waits { (seat.old.me.0.has_ticket ≡ true) × (seat.old.me.0.turn ≡ false) × (seat.old.me.0.ticket ≡ ticket) }
    ensures seat { IsSameSeat seat.old seat.new }
    ensures served { IfNone result ((y : _) × Takes M.opening M.list seat.old.me y seat.new.me) }
    ensures waits { IfSome result (λ served. (served ≢ ticket) × (seat.new.me ≡ seat.old.me)) }
{
    let serving = table.load::<Look<M>>(seat, SERVING);
    if serving == ticket {
        None
    } else {
        Some(serving)
    }
}

/// Looks until the ticket is served, and parks between two looks. Who is woken and isn't served wakes another.
fn wait_turn<M: Machine, R: Wait>(
    rt: &R,
    table: &TableShared<M>,
    seat: &mut TableSeat<M>,
    ticket: u64,
)
    requires lock { (seat.old.table_id ≡ table.now.table_id) × IsSized table.now.table_id }
    requires waits { (seat.old.me.0.has_ticket ≡ true) × (seat.old.me.0.turn ≡ false) × (seat.old.me.0.ticket ≡ ticket) }
    ensures { IsSameSeat seat.old seat.new × ((y : _) × Takes M.opening M.list seat.old.me y seat.new.me) }
{
    for _ in rt.forever() {
        let Some(serving) = look(table, seat, ticket) else {
            return;
        };
        table.park(rt, SERVING, (serving % PARKED) as u32);
        if table.peek(SERVING) != ticket {
            table.wake_one(SERVING);
        }
    }
    unreachable!()
}

/// Makes the step on the machine that the seat holds.
fn step<M: Machine>(
    table: &TableShared<M>,
    seat: &mut TableSeat<M>,
    caller: u32,
    step: M::Step,
) -> Made<M::Reply>
    requires { (seat.old.table_id ≡ table.now.table_id) × ((y : _) × (seat.old.me.1 ≡ (0, y) ∷ [])) }
    ensures same { IsSameSeat seat.old seat.new × (seat.new.me.0 ≡ seat.old.me.0) }
    ensures stepped { (y : _) × (z : _) × (seat.old.me.1 ≡ (0, y) ∷ []) × (seat.new.me.1 ≡ (0, z) ∷ []) × (M.opening z ≡ M.opening y)
        × M.allows (M.opening y) (M.list y) caller step result.reply × (M.list z ≡ added (M.list y) (M.records (M.opening y) step result.reply) (entry caller step))
        × (result.before ≡ length (M.list y)) × (result.after ≡ length (M.list z)) }
{
    let machine = seat.slot_mut(table, 0);
    let before = machine.length();
    let reply = machine.step(caller, step);
    let after = machine.length();
    Made {
        reply,
        before,
        after,
    }
}

/// Counts the `more` entries, none or one, that the held machine's list has gained, all of them this caller's.
fn count<M: Machine>(table: &TableShared<M>, seat: &mut TableSeat<M>, more: u32)
    requires lock { (seat.old.table_id ≡ table.now.table_id) × IsSized table.now.table_id }
    requires turn { (seat.old.me.0.live ≡ true) × (seat.old.me.0.turn ≡ true) }
    requires held { (y : _) × (seat.old.me.1 ≡ (0, y) ∷ []) × (length (M.list y) < 2 ^ 32)
        × ((es : _) × (M.list y ≡ seat.old.me.0.seen ++ es) × (more ≡ length es) × (entries_of seat.old.me.0.caller es ≡ es)
        × ((x : ℕ) → x ≢ seat.old.me.0.caller → entries_of x es ≡ [])) }
    ensures { IsSameSeat seat.old seat.new × ((y : _) → seat.old.me.1 ≡ (0, y) ∷ [] → seat.new.me ≡ (with_list (M.list y) seat.old.me.0, (0, y) ∷ [])) }
{
    table.fetch_add::<Count<M>>(seat, COUNT, more as u64);
}

/// Gives the machine back and serves the next ticket.
fn pass_on<M: Machine>(table: &TableShared<M>, seat: &mut TableSeat<M>)
    requires lock { (seat.old.table_id ≡ table.now.table_id) × IsSized table.now.table_id }
    requires turn { seat.old.me.0.turn ≡ true }
    requires held { (y : _) × (seat.old.me.1 ≡ (0, y) ∷ []) × (M.list y ≡ seat.old.me.0.seen) × (seat.old.me.0.opening ≡ Some (M.opening y)) }
    ensures { IsSameSeat seat.old seat.new × (seat.new.me ≡ (without_ticket seat.old.me.0, [])) }
{
    table.fetch_add::<PassOn<M>>(seat, SERVING, 1);
    table.wake_one(SERVING);
}

/// A whole step of a seat, from its ticket to the next one's turn.
pub(crate) fn apply_at<M: Machine, R: Wait>(
    rt: &R,
    table: &TableShared<M>,
    seat: &mut TableSeat<M>,
    caller: u32,
    action: M::Step,
) -> Applied<M::Reply>
    requires lock { (seat.old.table_id ≡ table.now.table_id) × IsSized table.now.table_id }
    requires rests { Rests seat.old.me.0 × (seat.old.me.1 ≡ []) × (seat.old.me.0.caller ≡ caller) }
    ensures seat { IsSameSeat seat.old seat.new × (seat.new.me.1 ≡ []) }
    ensures stepped { (o : _) × Stepped M.allows M.records o seat.old.me.0 seat.new.me.0 action result.reply result.front }
{
    let ticket = draw(table, seat);
    wait_turn(rt, table, seat, ticket);
    let Made {
        reply,
        before,
        after,
    } = step(table, seat, caller, action);
    count(table, seat, after - before);
    pass_on(table, seat);
    Applied {
        reply,
        front: after,
    }
}

/// Splits off a seat with the caller `caller`, which C names too.
pub(crate) fn split_as<M: Machine, C: Named>(
    table: &TableShared<M>,
    seat: &mut TableSeat<M>,
    caller: u32,
) -> TableSeat<M>
    requires lock { (seat.old.table_id ≡ table.now.table_id) × IsSized table.now.table_id }
    requires named { caller ≡ C.name }
    requires rests { Rests seat.old.me.0 × (seat.old.me.1 ≡ []) }
    requires spare { has caller seat.old.me.0.spare ≡ true }
    ensures left { IsSameSeat seat.old seat.new × (seat.new.me ≡ (left_view caller seat.old.me.0, [])) }
    ensures right { (result.table_id ≡ seat.old.table_id) × (result.me ≡ (right_view caller seat.old.me.0, [])) }
    ensures own { IsOwn result.me.0 result.me.0.seen }
{
    let mut new = table.split_seat::<HandOver<C>>(seat);
    table.load::<Know<M>>(&mut new, TICKET);
    new
}

/// Joins the other seat into this one, and compares what the two had seen.
pub(crate) fn join_at<M: Machine>(
    table: &TableShared<M>,
    seat: &mut TableSeat<M>,
    other: TableSeat<M>,
)
    requires lock { (seat.old.table_id ≡ table.now.table_id) × (other.table_id ≡ table.now.table_id) × IsSized table.now.table_id }
    requires rests { Rests seat.old.me.0 × Rests other.me.0 × (seat.old.me.1 ≡ []) × (other.me.1 ≡ []) }
    ensures seat { IsSameSeat seat.old seat.new × (seat.new.me ≡ (joined_view seat.old.me.0 other.me.0, [])) }
    ensures both { Begins seat.old.me.0.seen seat.new.me.0.seen × Begins other.me.0.seen seat.new.me.0.seen }
    ensures own { IsOwn seat.new.me.0 seat.new.me.0.seen }
{
    table.join_seat::<Merge>(seat, other);
    table.load::<Compare<M>>(seat, TICKET);
}
