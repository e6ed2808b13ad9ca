// What a site's own rule asks of it, with its own checks.
ghost use Rattle.std.specs.Prelude.{◌≡◌, ◌≤◌, length, pos};
ghost use Rattle.records.specs.Events.{has_room};
ghost use Rattle.rules.specs.Books.{event_of, event_for};
ghost use Rattle.area.specs.Rows.{row_size};
ghost use Rattle.area.specs.Levels.{names_at};
ghost use Rattle.lookup.specs.Lookup.{joint_rule};
ghost use Rattle.site.specs.Own.{Weighs, Owns, meeting_of, Invites};

use area::stand::Stand;
use limits::Party;
use nodes::JointNode;
use refusals::Refusal;
use rules::effects::{Effect, Meeting, Offer, View};

#[derive(Clone, Copy)]
pub enum Own {
    Acts(Effect),
    // it passes its own checks at a joint node
    Attends(Meeting, Offer),
}

// The event of a meeting has room in the site's own record. Its length does not hang on the number.
fn room_for(p: Party, mt: Meeting, room: usize, used: usize) -> bool
    ensures { result ≡ has_room room used (event_for p.index (event_of mt (pos 0))) }
{
    ledger::entries::event_for(p, judge::meetings::event_of(mt, 0)).has_room(room, used)
}

// What site p does of what its rule asks for. A meeting whose event has no room in its own record is a refusal.
fn weighed(effect: Effect, p: Party, room: usize, used: usize) -> Own
    ensures { Weighs p.index effect room used result }
{
    let Effect::Meets(mt, offer) = effect else {
        return Own::Acts(effect);
    };
    if room_for(p, mt, room, used) {
        return Own::Attends(mt, offer);
    }
    Own::Acts(Effect::Refuse(Refusal::NoRoom))
}

// What site p, which stands at t, is to do at a joint node.
pub fn own_at(node: JointNode, p: Party, t: Stand, room: usize, used: usize, area: &[u8]) -> Own
    requires { row_size ≤ length area.now }
    ensures { Owns node p t room used result area.now }
{
    let effect = lookup::joint_effect(View::Site(p), node, t, area);
    weighed(effect, p, room, used)
}

// The meeting that a site attends.
#[derive(Clone, Copy)]
pub struct Invitation {
    pub meeting: Meeting,
    pub offer: Offer,
}

fn meeting_of(effect: Effect) -> Option<Invitation>
    ensures { result ≡ meeting_of effect }
{
    let Effect::Meets(meeting, offer) = effect else {
        return None;
    };
    Some(Invitation { meeting, offer })
}

// The meeting that the rule of a joint node asks site p for.
fn meeting(p: Party, node: JointNode, t: Stand, area: &[u8]) -> Option<Invitation>
    requires { row_size ≤ length area.now }
    ensures { result ≡ meeting_of (joint_rule (View.Site p) node t.mode (names_at area.now t.depth.frames)) }
{
    let m = t.mode;
    let depth = t.depth;
    match node {
        JointNode::SHARE(a, q, x) => {
            let Ok(b) = lookup::seek(area, depth, m, x) else {
                return None;
            };
            let v = b.value;
            meeting_of(party_rules::share(View::Site(p), m, a, q, v))
        }
        JointNode::REVEAL(q, x) => {
            let Ok(b) = lookup::seek(area, depth, m, x) else {
                return None;
            };
            let v = b.value;
            meeting_of(party_rules::reveal(View::Site(p), m, q, v))
        }
        JointNode::Neither => None,
    }
}

// Whether site p, which stands at t, passes its own checks at a joint node.
pub fn invited(
    node: JointNode,
    p: Party,
    t: Stand,
    room: usize,
    used: usize,
    area: &[u8],
) -> Option<Invitation>
    requires { row_size ≤ length area.now }
    ensures { Invites node p t room used result area.now }
{
    let invitation = meeting(p, node, t, area)?;
    if room_for(p, invitation.meeting, room, used) {
        return Some(invitation);
    }
    None
}
