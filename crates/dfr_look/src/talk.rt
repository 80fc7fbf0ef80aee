//! A GOOSE control block.

ghost use Rattle.std.specs.Prelude.{◌≡◌};
ghost use Rattle.dfr_look.specs.Talks as spec;

use crate::counter::up;
use crate::flow::counts;
use dfr_bus::Goose;

/// What a message says of its control block.
#[derive(Clone, Copy, Debug, PartialEq, Eq)]
pub struct Message {
    /// The number of the state (stNum).
    pub state: u32,
    /// The number of the message in this state (sqNum).
    pub number: u32,
    /// For how many milliseconds it holds (timeAllowedtoLive).
    pub live: u32,
    /// Whether it is a test (test).
    pub test: bool,
    /// Whether the control block needs commissioning (ndsCom).
    pub commissioning: bool,
    /// The revision of the configuration (confRev).
    pub revision: u32,
    /// How many elements the dataset has (numDatSetEntries).
    pub entries: u32,
    /// When it came, in nanoseconds since 1970.
    pub time: u64,
}

/// What a message is after the one before it.
#[derive(Clone, Copy, Debug, PartialEq, Eq)]
pub enum Turn {
    /// That one once more.
    Repeated,
    /// A further one of its state, with so many lost between them.
    Further(u32),
    /// One of a new state, with so many states lost between them.
    State(u32),
    /// One of a state or a number before.
    Back,
}

/// What the messages of a control block come to.
#[derive(Clone, Copy, Debug, PartialEq, Eq)]
pub struct Talk {
    /// The first message.
    pub first: Message,
    /// The last message.
    pub newest: Message,
    /// How many messages there are.
    pub messages: u64,
    /// How many are lost.
    pub lost: u64,
    /// How often the state changed.
    pub states: u64,
    /// How many states are lost.
    pub lost_states: u64,
    /// How many messages came twice, one right after the other.
    pub repeated: u64,
    /// How many have a state or a number before that of the message before them.
    pub back: u64,
    /// How many are tests.
    pub tests: u64,
    /// How many need commissioning.
    pub commissioning: u64,
    /// How many came later than the message before them allows.
    pub expired: u64,
    /// How many have another number of elements or another revision than the first.
    pub changed: u64,
}

/// What a message says, that came at this nanosecond.
pub fn message_of(goose: &Goose, time: u64) -> Message
    ensures { result ≡ spec.message_of goose.now time }
{
    Message {
        state: goose.st_num,
        number: goose.sq_num,
        live: goose.time_allowed_to_live,
        test: goose.test,
        commissioning: goose.nds_com,
        revision: goose.conf_rev,
        entries: goose.entries,
        time,
    }
}

/// What a message is after the one before it.
fn turn_of(before: &Message, message: &Message) -> Turn
    ensures { result ≡ spec.turn before.now message.now }
{
    if message.state == before.state && message.number == before.number {
        Turn::Repeated
    } else if message.state == before.state && before.number < message.number {
        Turn::Further(message.number - before.number - 1)
    } else if before.state < message.state {
        Turn::State(message.state - before.state - 1)
    } else {
        Turn::Back
    }
}

/// Whether a message came later than the one before it allows.
fn is_expired(before: &Message, message: &Message) -> bool
    ensures { result ≡ spec.is_expired before.now message.now }
{
    let end = u128::from(before.time) + u128::from(before.live) * 1_000_000;
    end < u128::from(message.time)
}

impl Talk {
    ghost use Rattle.std.specs.Prelude.{◌≡◌};
    ghost use Rattle.dfr_look.specs.Talks.{first_talk, turned, noted, talk_after};

    /// A control block of one message.
    pub fn new(message: Message) -> Talk
        ensures { result ≡ first_talk message }
    {
        Talk {
            first: message,
            newest: message,
            messages: 1,
            lost: 0,
            states: 0,
            lost_states: 0,
            repeated: 0,
            back: 0,
            tests: counts(message.test),
            commissioning: counts(message.commissioning),
            expired: 0,
            changed: 0,
        }
    }

    /// What the turn of a message counts for.
    fn turned(self, turn: Turn, message: &Message) -> Talk
        ensures { result ≡ turned turn message.now self }
    {
        match turn {
            Turn::Repeated => Talk {
                repeated: up(self.repeated, 1),
                ..self
            },
            Turn::Further(lost) => Talk {
                lost: up(self.lost, u64::from(lost)),
                ..self
            },
            Turn::State(lost) => Talk {
                states: up(self.states, 1),
                lost_states: up(self.lost_states, u64::from(lost)),
                lost: up(self.lost, u64::from(message.number)),
                ..self
            },
            Turn::Back => Talk {
                back: up(self.back, 1),
                ..self
            },
        }
    }

    /// What a message counts for by itself.
    fn noted(self, message: &Message) -> Talk
        ensures { result ≡ noted message.now self }
    {
        let is_like = message.entries == self.first.entries
            && message.revision == self.first.revision;
        Talk {
            newest: *message,
            messages: up(self.messages, 1),
            tests: up(self.tests, counts(message.test)),
            commissioning: up(self.commissioning, counts(message.commissioning)),
            expired: up(self.expired, counts(is_expired(&self.newest, message))),
            changed: up(self.changed, counts(!is_like)),
            ..self
        }
    }

    /// The control block after one message more.
    pub fn after(self, message: Message) -> Talk
        ensures { result ≡ talk_after self message }
    {
        let turn = turn_of(&self.newest, &message);
        self.turned(turn, &message).noted(&message)
    }
}
