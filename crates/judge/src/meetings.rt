// What a meeting about the number i writes and hands back.
ghost use Rattle.std.specs.Prelude.{◌≡◌};
ghost use Rattle.rules.specs.Books.{handed, event_of};

use records::events::Event;
use rules::effects::Meeting;
use values::value::Value;

pub fn event_of(mt: Meeting, i: i32) -> Event
    ensures { result ≡ event_of mt i }
{
    match mt {
        Meeting::Sharing(a, q) => Event::Shared(a, q),
        Meeting::Revealing(q) => Event::Opened(q, i),
    }
}

pub fn handed(mt: Meeting, i: i32) -> Value
    ensures { result ≡ handed mt i }
{
    match mt {
        Meeting::Sharing(_, q) => Value::Share(i, q, q),
        Meeting::Revealing(q) => Value::Clear(i, q),
    }
}
