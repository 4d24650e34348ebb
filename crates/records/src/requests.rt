ghost use Rattle.std.specs.Prelude.{◌≡◌, ◌&&◌};
ghost use Rattle.protocol.specs.Seats.{activity};
ghost use Rattle.protocol.specs.Lines.{is_free};
ghost use Rattle.protocol.specs.Stages.{request_of, has_stage, has_key, state_suits, foreign};
ghost use Rattle.records.specs.Means.{line_means, transit_means, progress_means, request_means, seat_means};

use crate::line::{Line, Reply, Request, Transit};
use crate::seat::Seat;
use protocol::phase::Phase;
use protocol::stage::Stage;
use stores::stored::Stored;
use values::kind::Kind;
use values::refusal::Refusal;
use values::version::Key;

impl<V: Kind> Line<V> {
    // What the line asks at its stage.
    pub fn request_of(&self, seat: &Seat<V>) -> Request<V>
        ensures { request_means V.Kind.code result ≡ request_of (activity (seat_means V.Kind.code seat.now)) (progress_means V.Kind.code self.now) }
    {
        let pair = Stored {
            version: seat.version,
            value: seat.value,
        };
        match (seat.phase, self.stage) {
            (Phase::Storing, Stage::RemoveOlder) => Request::Remove(self.older.first()),
            (Phase::Storing, Stage::PutStanding) => Request::Put(Key::STANDING, pair),
            (Phase::Storing, Stage::PutOwn) => Request::Put(seat.version, pair),
            (Phase::Storing, Stage::RemoveLargest) => Request::Remove(self.largest),
            (Phase::Gathering, Stage::GetLargest) => Request::Get(self.largest),
            (Phase::Gathering, Stage::GetStanding) => Request::Get(Key::STANDING),
            _ => Request::List,
        }
    }

    // Whether the seat's phase has the line's stage, and the line's list the key that the stage needs.
    fn at_home(&self, seat: &Seat<V>) -> bool
        ensures { result ≡ (has_stage (activity (seat_means V.Kind.code seat.now)) self.now.stage && has_key self.now.stage (progress_means V.Kind.code self.now)) }
    {
        match (seat.phase, self.stage) {
            (Phase::Listing | Phase::Storing | Phase::Gathering, Stage::List) => true,
            (Phase::Storing, Stage::RemoveOlder) => self.older.any(),
            (Phase::Storing, Stage::PutStanding | Stage::PutOwn) => true,
            (Phase::Storing, Stage::RemoveLargest) => self.largest != Key::STANDING,
            (Phase::Gathering, Stage::GetLargest) => self.largest != Key::STANDING,
            (Phase::Gathering, Stage::GetStanding) => true,
            _ => false,
        }
    }

    // Whether the line's answer, if it has one that is not stale, is of the kind of a request.
    fn suits(&self, request: Request<V>) -> bool
        ensures { result ≡ state_suits (request_means V.Kind.code request) (transit_means V.Kind.code self.now.transit) }
    {
        match self.transit {
            Transit::Answered {
                stale: false,
                answer,
            } => matches!(
                (request, answer),
                (Request::List, Ok(Reply::Keys(_)))
                    | (Request::Get(_), Ok(Reply::Got(_)))
                    | (Request::Put(_, _) | Request::Remove(_), Ok(Reply::Done))
                    | (Request::Put(_, _), Err(Refusal::StoreFull))
            ),
            _ => true,
        }
    }

    // Whether the line is no line of its seat's phase: a sheet may hold anything.
    pub fn foreign(&self, seat: &Seat<V>) -> bool
        ensures { result ≡ foreign (activity (seat_means V.Kind.code seat.now)) (line_means V.Kind.code self.now) }
    {
        !self.at_home(seat) || self.done && !self.is_free() || !self.suits(self.request_of(seat))
    }

    pub fn is_free(&self) -> bool
        ensures { result ≡ is_free (transit_means V.Kind.code self.now.transit) }
    {
        matches!(self.transit, Transit::Free)
    }
}
