// One step of the single run.
#![tactic(auto)]

ghost use Rattle.std.specs.Prelude.{◌≡◌, ◌*◌, ◌≤◌, length};
ghost use Rattle.limits.specs.Limits.{max_parties};
ghost use Rattle.parties.specs.Sets.{count};
ghost use Rattle.area.specs.Rows.{row_size};
ghost use Rattle.single_step.specs.Steps.{Arrives, Moved, EntryOf, Settles, EffectOf, Strides};
ghost use Rattle.rules.specs.RunLaws.{Sound};
ghost use Rattle.advance.specs.Advances.{Asked};

use advance::Advanced;
use advance::strides::far;
use area::stand::{Next, Stand};
use parties::sets::PartySet;
use records::events::Event;
use refusals::Refusal;
use rules::effects::{Effect, Move, Offer, View};
use values::value::Value;

#[derive(Clone, Copy)]
pub enum Stepped {
    On(Stand),
    Ended,
    Stopped(Refusal),
}

// Where a move has led: on, to the end, where every party writes kind 6, or to no place for a frame more.
fn arrive(next: Next, n: u8, room: usize, bytes: &mut [u8], lengths: &mut [usize]) -> Stepped
    requires { (n ≤ max_parties) × (n * room ≤ length bytes.old) × (n ≤ length lengths.old) }
    ensures { Arrives room n next result bytes.old lengths.old bytes.new lengths.new }
{
    match next {
        Next::On(t) => Stepped::On(t),
        Next::Ends(v) => {
            ledger::entries::finish_all(v, n, room, bytes, lengths);
            Stepped::Ended
        }
        Next::Full => Stepped::Stopped(Refusal::TooDeep),
    }
}

// A value is handed back, and control arrives.
fn hand_back(
    v: Value,
    t: Stand,
    n: u8,
    room: usize,
    bytes: &mut [u8],
    lengths: &mut [usize],
    work: &mut [u8],
) -> Stepped
    requires { (n ≤ max_parties) × (n * room ≤ length bytes.old) × (n ≤ length lengths.old) × (row_size ≤ length work.old) }
    ensures { Moved room n (Move.Hand v) t result bytes.old lengths.old work.old bytes.new lengths.new work.new }
{
    let next = area::levels::hand_back(v, t.depth, work);
    arrive(next, n, room, bytes, lengths)
}

// Each member of the mode notes the event and the value is handed back; where a member lacks room, nobody notes it and the run stops, as at a refusal.
fn settled(
    entry: Result<(Event, Value), Refusal>,
    t: Stand,
    n: u8,
    room: usize,
    bytes: &mut [u8],
    lengths: &mut [usize],
    work: &mut [u8],
) -> Stepped
    requires { (n ≤ max_parties) × (n * room ≤ length bytes.old) × (n ≤ length lengths.old) × (row_size ≤ length work.old) }
    ensures { Settles room n entry t result bytes.old lengths.old work.old bytes.new lengths.new work.new }
{
    let m = t.mode;
    match entry {
        Err(refusal) => Stepped::Stopped(refusal),
        Ok((ev, v)) => {
            if ledger::entries::room_for_all(ev, m, n, room, lengths) {
                ledger::entries::note_all(ev, m, n, room, bytes, lengths);
                return hand_back(v, t, n, room, bytes, lengths, work);
            }
            Stepped::Stopped(Refusal::NoRoom)
        }
    }
}

// READ: the next input of the one party of the mode.
fn read(
    m: PartySet,
    inputs: &[i32],
    at: &mut [usize],
    end: &[usize],
) -> Result<(Event, Value), Refusal>
    requires { (max_parties ≤ length at.old) × (max_parties ≤ length end.now) × (count m ≡ 1) }
    ensures { EntryOf inputs.now end.now Effect.Reads m result at.old at.new }
{
    let p = m.lowest() as usize;
    let Some(i) = inputs::next_input(p, inputs, at, end) else {
        return Err(Refusal::NoInput);
    };
    at[p] = at[p] + 1;
    Ok((Event::Read(i), Value::Clear(i, m)))
}

// What an effect comes to that asks for more than a move: of a move nothing is left to do.
fn entry_of(
    effect: Effect,
    m: PartySet,
    inputs: &[i32],
    at: &mut [usize],
    end: &[usize],
) -> Result<(Event, Value), Refusal>
    requires { (max_parties ≤ length at.old) × (max_parties ≤ length end.now) × Sound m effect × Asked effect }
    ensures { EntryOf inputs.now end.now effect m result at.old at.new }
{
    match effect {
        Effect::Refuse(refusal) => Err(refusal),
        Effect::Goes(_) => unreachable!(),
        Effect::Reads => read(m, inputs, at, end),
        Effect::Writes(i) => Ok((Event::Wrote(i), Value::Clear(0, m))),
        Effect::Meets(mt, offer) => match offer {
            Offer::Empty => Err(Refusal::WrongValue),
            Offer::Secret(i, _) => Ok((
                judge::meetings::event_of(mt, i),
                judge::meetings::handed(mt, i),
            )),
        },
    }
}

// What the rule asks for besides a move, where the loop over moves was left: of a move nothing is left to do.
fn effect_of(advanced: Advanced, program: &[u8], nodes: usize, t: Stand, w: &[u8]) -> Effect
    requires { row_size ≤ length w.now }
    ensures { EffectOf program.now nodes advanced t result w.now }
{
    match advanced {
        Advanced::Moved(_) => Effect::Reads,
        Advanced::Asks(effect) => effect,
        Advanced::Joins => {
            let node = table::joint_node(program, nodes, w, t.node);
            lookup::joint_effect(View::Whole, node, t, w)
        }
    }
}

// Some moves, the node that they led to, and what the step from there came to.
#[derive(Clone, Copy)]
pub struct Stride {
    pub moves: u32,
    pub node: u16,
    pub came: Stepped,
}

// Steps as long as control just moves, at most `most` of them; what the rule asks for besides is done.
pub fn step(
    program: &[u8],
    nodes: usize,
    t: Stand,
    most: u32,
    n: u8,
    room: usize,
    inputs: &[i32],
    at: &mut [usize],
    end: &[usize],
    bytes: &mut [u8],
    lengths: &mut [usize],
    work: &mut [u8],
) -> Stride
    requires { (1 ≤ most) × (n ≤ max_parties) × (n * room ≤ length bytes.old) × (n ≤ length lengths.old) × (length work.old ≡ row_size) × (max_parties ≤ length at.old) × (max_parties ≤ length end.now) × (nodes ≤ 1024) }
    ensures { Strides program.now nodes room n inputs.now end.now most t result (record { bytes = bytes.old; lengths = lengths.old; work = work.old; at = at.old }) (record { bytes = bytes.new; lengths = lengths.new; work = work.new; at = at.new }) }
{
    let gone = far(program, nodes, t, most, work);
    let moves = gone.moves;
    let stand = gone.stand;
    let node = stand.node;
    let advanced = gone.came;
    let Advanced::Moved(next) = advanced else {
        let effect = effect_of(advanced, program, nodes, stand, work);
        let entry = entry_of(effect, stand.mode, inputs, at, end);
        let came = settled(entry, stand, n, room, bytes, lengths, work);
        return Stride { moves, node, came };
    };
    let came = arrive(next, n, room, bytes, lengths);
    Stride { moves, node, came }
}
