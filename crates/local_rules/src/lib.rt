// The rules that want their values at exactly m: OP, MUX, WRITE, EMBED and CASE; and READ, which has none.
#![tactic(auto)]

ghost use Rattle.std.specs.Prelude.{◌≡◌, cond, pos};
ghost use Rattle.numbers.specs.Integers.{operate, operation_of, same_integer};
ghost use Rattle.values.specs.Values.{held};
ghost use Rattle.values.specs.declared.value.Value.TheVariants.{Share};
ghost use Rattle.rules.specs.Rules.{unless, hands_back, on_two, on_three, mux, if_clear, alone};
ghost use Rattle.local_rules.specs.Handed.{clear_in};

use numbers::integers::Operation;
use parties::sets::PartySet;
use refusals::Refusal;
use rules::effects::{Effect, Move};
use values::value::Value;

// m has one party: the count of ones of its bits.
#[tactic(auto, unfolding(rules::specs::Rules::alone))]
fn alone(m: PartySet) -> bool
    ensures { result ≡ alone m }
{
    m.count() == 1
}

pub fn op(o: u8, x: Value, y: Value, m: PartySet) -> Effect
    ensures { result ≡ on_two m (operate (operation_of o)) (held m x) (held m y) }
{
    match (x.held(m), y.held(m)) {
        (Some(x), Some(y)) if x.secret == y.secret => {
            let n = Operation::from(o).of(x.number, y.number);
            Effect::Goes(Move::Hand(Value::had_by(m, x.secret, n)))
        }
        _ => Effect::Refuse(Refusal::WrongValue),
    }
}

// y where x is not 0, else z.
#[tactic(auto, using(crate::proofs::RuleLaws::is_zero, crate::proofs::RuleLaws::not_zero), unfolding(rules::specs::Rules::mux))]
fn chosen(x: i32, y: i32, z: i32) -> i32
    ensures { result ≡ mux x y z }
{
    if x == 0 { z } else { y }
}

pub fn mux(x: Value, y: Value, z: Value, m: PartySet) -> Effect
    ensures { result ≡ on_three m mux (held m x) (held m y) (held m z) }
{
    match (x.held(m), y.held(m), z.held(m)) {
        (Some(x), Some(y), Some(z)) if x.secret == y.secret && x.secret == z.secret => {
            let n = chosen(x.number, y.number, z.number);
            Effect::Goes(Move::Hand(Value::had_by(m, x.secret, n)))
        }
        _ => Effect::Refuse(Refusal::WrongValue),
    }
}

pub fn read(m: PartySet) -> Effect
    ensures { result ≡ unless Refusal.WrongMode (alone m) Effect.Reads }
{
    if alone(m) {
        Effect::Reads
    } else {
        Effect::Refuse(Refusal::WrongMode)
    }
}

// What a rule that wants x clear at exactly m sees of it.
fn clear_at(x: Value, m: PartySet) -> Option<i32>
    ensures { result ≡ clear_in (held m x) }
{
    let seen = x.held(m)?;
    if seen.secret { None } else { Some(seen.number) }
}

pub fn write(x: Value, m: PartySet) -> Effect
    ensures { result ≡ if_clear (held m x) (λ i. unless Refusal.WrongMode (alone m) (Effect.Writes i)) }
{
    let Some(i) = clear_at(x, m) else {
        return Effect::Refuse(Refusal::WrongValue);
    };
    if alone(m) {
        Effect::Writes(i)
    } else {
        Effect::Refuse(Refusal::WrongMode)
    }
}

pub fn embed(x: Value, m: PartySet) -> Effect
    ensures { result ≡ if_clear (held m x) (λ i. hands_back (Share i m m)) }
{
    let Some(i) = clear_at(x, m) else {
        return Effect::Refuse(Refusal::WrongValue);
    };
    Effect::Goes(Move::Hand(Value::Share(i, m, m)))
}

#[tactic(auto, using(crate::proofs::RuleLaws::is_zero, crate::proofs::RuleLaws::not_zero))]
pub fn case(x: Value, m: PartySet, e1: u16, e2: u16) -> Effect
    ensures { result ≡ if_clear (held m x) (λ i. Effect.Goes (Move.Goto (cond (same_integer i (pos 0)) e2 e1))) }
{
    let Some(i) = clear_at(x, m) else {
        return Effect::Refuse(Refusal::WrongValue);
    };
    if i == 0 {
        Effect::Goes(Move::Goto(e2))
    } else {
        Effect::Goes(Move::Goto(e1))
    }
}
