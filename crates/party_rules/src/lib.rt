// The rules that know whether they run for all of a mode or at one site: SHARE, REVEAL and PAR.
#![tactic(auto)]

ghost use Rattle.std.specs.Prelude.{◌≡◌, cond};
ghost use Rattle.parties.specs.Sets.{meet};
ghost use Rattle.values.specs.declared.value.Value.TheVariants.{Nothing};
ghost use Rattle.rules.specs.Rules.{hands_back, giver_shares, other_shares, at_share, holder_opens, at_reveal, goes_in};

use limits::Party;
use parties::sets::PartySet;
use refusals::Refusal;
use rules::effects::{Effect, Meeting, Move, Offer, View};
use values::value::Value;

fn giver_shares(m: PartySet, a: Party, q: PartySet, x: Value) -> Effect
    ensures { result ≡ giver_shares m a q x }
{
    match x {
        Value::Nothing => Effect::Refuse(Refusal::WrongValue),
        Value::Share(_, _, _) => Effect::Refuse(Refusal::WrongValue),
        Value::Clear(i, l) => {
            if l.has(a) {
                if m.made_up_by(a, q) {
                    return Effect::Meets(
                        Meeting::Sharing(a, q),
                        Offer::Secret(i, PartySet::only(a)),
                    );
                }
                return Effect::Refuse(Refusal::WrongMode);
            }
            Effect::Refuse(Refusal::WrongValue)
        }
    }
}

fn other_shares(m: PartySet, a: Party, q: PartySet) -> Effect
    ensures { result ≡ other_shares m a q }
{
    if m.made_up_by(a, q) {
        Effect::Meets(Meeting::Sharing(a, q), Offer::Empty)
    } else {
        Effect::Refuse(Refusal::WrongMode)
    }
}

#[tactic(auto, unfolding(rules::specs::Rules::at_share))]
pub fn share(view: View, m: PartySet, a: Party, q: PartySet, x: Value) -> Effect
    ensures { result ≡ at_share view m a q x }
{
    match view {
        View::Whole => giver_shares(m, a, q, x),
        View::Site(p) => {
            if p == a {
                giver_shares(m, a, q, x)
            } else {
                other_shares(m, a, q)
            }
        }
    }
}

#[tactic(auto, unfolding(rules::specs::Rules::holder_opens, parties::specs::Sets::same_set))]
fn holder_opens(m: PartySet, q: PartySet, x: Value) -> Effect
    ensures { result ≡ holder_opens m q x }
{
    match x {
        Value::Nothing => Effect::Refuse(Refusal::WrongValue),
        Value::Clear(_, _) => Effect::Refuse(Refusal::WrongValue),
        Value::Share(i, h, l) => {
            if l == h {
                if h.join(q) == m {
                    return Effect::Meets(Meeting::Revealing(q), Offer::Secret(i, h));
                }
                return Effect::Refuse(Refusal::WrongMode);
            }
            Effect::Refuse(Refusal::WrongValue)
        }
    }
}

// A site that holds nothing has to be in q.
fn site_without(m: PartySet, q: PartySet, p: Party, x: Value) -> Effect
    ensures { result ≡ at_reveal (View.Site p) m q x }
{
    match x {
        Value::Nothing => {
            if q.has(p) {
                Effect::Meets(Meeting::Revealing(q), Offer::Empty)
            } else {
                Effect::Refuse(Refusal::WrongMode)
            }
        }
        Value::Clear(_, _) => holder_opens(m, q, x),
        Value::Share(_, _, _) => holder_opens(m, q, x),
    }
}

pub fn reveal(view: View, m: PartySet, q: PartySet, x: Value) -> Effect
    ensures { result ≡ at_reveal view m q x }
{
    match view {
        View::Whole => holder_opens(m, q, x),
        View::Site(p) => site_without(m, q, p, x),
    }
}

fn goes_in(view: View, m: PartySet, p: PartySet) -> bool
    ensures { result ≡ goes_in view m p }
{
    match view {
        View::Whole => !m.meet(p).is_empty(),
        View::Site(s) => p.has(s),
    }
}

pub fn par(view: View, m: PartySet, p: PartySet, e: u16) -> Effect
    ensures { result ≡ cond (goes_in view m p) (Effect.Goes (Move.Enter (meet m p) e)) (hands_back Nothing) }
{
    if goes_in(view, m, p) {
        Effect::Goes(Move::Enter(m.meet(p), e))
    } else {
        Effect::Goes(Move::Hand(Value::Nothing))
    }
}
