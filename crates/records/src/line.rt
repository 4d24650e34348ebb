ghost use Rattle.std.specs.Prelude.{◌≡◌, false};
ghost use Rattle.protocol.specs.Lines as lin;
ghost use Rattle.protocol.specs.Lines.{blank_line, stale_state, restart_line};
ghost use Rattle.protocol.specs.Phases.{counts, listed_on, found_on};
ghost use Rattle.std.specs.Option.{option_map};
ghost use Rattle.values.specs.Rank.{rank};
ghost use Rattle.stores.specs.Operations.{pair_means};
ghost use Rattle.records.specs.Blanks.{blank_line_record};
ghost use Rattle.records.specs.Means.{line_means, transit_means, progress_means, request_means, answer_means, is_stale};

use crate::key_list::KeyList;
use protocol::stage::Stage;
use stores::stored::Stored;
use values::kind::Kind;
use values::refusal::Refusal;
use values::version::{Key, Version};

// What a line asks of its provider.
#[derive(Clone, Copy, PartialEq, Eq, Debug)]
pub enum Request<V> {
    List,
    Get(Key),
    Put(Key, Stored<V>),
    Remove(Key),
}

// What a provider answers, where it does not refuse.
#[derive(Clone, Copy, PartialEq, Eq, Debug)]
pub enum Reply<V> {
    Keys(KeyList),
    Got(Option<Stored<V>>),
    Done,
}

// What a line has on the way: nothing; its request to the provider; or the provider's answer, or its refusal, until that is
// fetched. A request or an answer is stale if it is of a phase that is over. (That is a yes or no, as in the protocol's `sent`
// and `answered`: a stale request is still carried out, and its answer waits to be dropped.)
#[derive(Clone, Copy, PartialEq, Eq, Debug)]
pub enum Transit<V> {
    Free,
    Sent {
        stale: bool,
        request: Request<V>,
    },
    Answered {
        stale: bool,
        answer: Result<Reply<V>, Refusal>,
    },
}

// A line: what one seat has to do with one provider, that is, what is on the way, and how far the line is in its seat's
// phase. (Whether it is done stands beside what it found, as in the protocol's record of a line: a line that has listed is
// done with a key and no pair.)
#[derive(Clone, Copy, PartialEq, Eq, Debug)]
pub struct Line<V> {
    pub transit: Transit<V>,
    pub stage: Stage,
    pub done: bool,
    pub mark: Version,
    pub older: KeyList,
    pub largest: Key,
    pub found: Option<Stored<V>>,
}

impl<V: Kind> Transit<V> {
    // Whether what is on the way is stale. (Where nothing is on the way, the answer is no.)
    pub fn is_stale(&self) -> bool
        ensures { result ≡ is_stale (transit_means V.Kind.code self.now) }
    {
        match self {
            Transit::Free => false,
            Transit::Sent { stale, .. } => *stale,
            Transit::Answered { stale, .. } => *stale,
        }
    }

    // The same once its phase is over: stale, if there is anything. (The flag alone is written: a match that put the case together
    // again would copy the request or the answer of each line of a seat, whenever a phase of the seat begins or ends.)
    fn stale(self) -> Transit<V>
        ensures { transit_means V.Kind.code result ≡ stale_state (transit_means V.Kind.code self) }
    {
        let mut transit = self;
        match &mut transit {
            Transit::Free => {}
            Transit::Sent { stale, .. } => *stale = true,
            Transit::Answered { stale, .. } => *stale = true,
        }
        transit
    }
}

impl<V: Kind> Line<V> {
    // A free line at the start of a phase, with its other fields zero or blank.
    pub fn blank() -> Line<V>
        ensures means { line_means V.Kind.code result ≡ blank_line }
        ensures whole { result ≡ blank_line_record }
    {
        Line {
            transit: Transit::Free,
            stage: Stage::List,
            done: false,
            mark: Version::NONE,
            older: KeyList::empty(),
            largest: Key::STANDING,
            found: None,
        }
    }

    // The line, free.
    pub fn freed(self) -> Line<V>
        ensures { line_means V.Kind.code result ≡ record { state = lin.free; progress = progress_means V.Kind.code self } }
    {
        let transit = Transit::Free;
        Line { transit, ..self }
    }

    // The line with a request on the way.
    pub fn sent(self, request: Request<V>) -> Line<V>
        ensures { line_means V.Kind.code result ≡ record { state = lin.sent false (request_means V.Kind.code request); progress = progress_means V.Kind.code self } }
    {
        let stale = false;
        let transit = Transit::Sent { stale, request };
        Line { transit, ..self }
    }

    // The line with an answer, stale or not.
    pub fn answered(self, stale: bool, answer: Result<Reply<V>, Refusal>) -> Line<V>
        ensures { line_means V.Kind.code result ≡ record { state = lin.answered stale (answer_means V.Kind.code answer); progress = progress_means V.Kind.code self } }
    {
        let transit = Transit::Answered { stale, answer };
        Line { transit, ..self }
    }

    // The line with the answer to the request that it has on the way, as stale as that was.
    pub fn landed(self, answer: Result<Reply<V>, Refusal>) -> Line<V>
        ensures { line_means V.Kind.code result ≡ record { state = lin.answered (is_stale (line_means V.Kind.code self).state) (answer_means V.Kind.code answer); progress = progress_means V.Kind.code self } }
    {
        let stale = self.transit.is_stale();
        self.answered(stale, answer)
    }

    // The line after a phase of its seat started or its operation ended.
    pub fn restarted(self) -> Line<V>
        ensures { line_means V.Kind.code result ≡ restart_line (line_means V.Kind.code self) }
    {
        Line {
            transit: self.transit.stale(),
            stage: Stage::List,
            done: false,
            mark: Version::NONE,
            ..self
        }
    }

    // Whether the line counts as done: where its record says so, free or not.
    pub fn counts(&self) -> bool
        ensures { result ≡ counts (line_means V.Kind.code self.now) }
    {
        self.done
    }

    // The largest key that it listed, if it counts.
    pub fn counted_key(&self) -> Key
        ensures { rank result ≡ listed_on (line_means V.Kind.code self.now) }
    {
        if self.counts() {
            self.largest
        } else {
            Key::STANDING
        }
    }

    // What it found, if it counts.
    pub fn counted_pair(&self) -> Option<Stored<V>>
        ensures { option_map (pair_means V.Kind.code) result ≡ found_on (line_means V.Kind.code self.now) }
    {
        if self.counts() { self.found } else { None }
    }
}
