ghost use Rattle.std.specs.Prelude.{◌≡◌};
ghost use Rattle.std.specs.Option.{option_map};
ghost use Rattle.values.specs.Rank.{rank};
ghost use Rattle.stores.specs.Operations.{pair_means};
ghost use Rattle.protocol.specs.Lines as lin;
ghost use Rattle.protocol.specs.Moves.{to_stage, finished, finished_with, keep_list, remove_or_put, after_list, advance_listing, advance_storing, gather_list, gather_largest, gather_standing, advance_gathering, set_mark, advance};
ghost use Rattle.protocol.specs.Seats.{activity};
ghost use Rattle.protocol.specs.Steps.{looks_after};
ghost use Rattle.records.specs.Means.{listed, line_means, progress_means, answer_means, seat_means, advance_own};

use crate::key_list::KeyList;
use crate::line::{Line, Reply, Transit};
use crate::seat::Seat;
use protocol::phase::Phase;
use protocol::stage::Stage;
use stores::stored::Stored;
use values::kind::Kind;
use values::refusal::Refusal;
use values::version::{Key, Version};

// How an answer moves a line. Each function changes what says how far the line is, and leaves the rest. (Here, in `requests`
// and in the crate `relay`, functions match on phase, stage and request, as the protocol's definitions do: these are data,
// which records hold and compare, and no closures.)
impl<V: Kind> Line<V> {
    fn to_stage(self, stage: Stage) -> Line<V>
        ensures { progress_means V.Kind.code result ≡ to_stage stage (progress_means V.Kind.code self) }
    {
        Line { stage, ..self }
    }

    fn finished(self) -> Line<V>
        ensures { progress_means V.Kind.code result ≡ finished (progress_means V.Kind.code self) }
    {
        Line { done: true, ..self }
    }

    // Done, with what it found, if anything.
    fn finished_with(self, found: Option<Stored<V>>) -> Line<V>
        ensures { progress_means V.Kind.code result ≡ finished_with (option_map (pair_means V.Kind.code) found) (progress_means V.Kind.code self) }
    {
        Line { found, ..self }.finished()
    }

    // The line with the keys of a list: the largest temporary one, and the others to remove.
    fn keep_list(self, keys: KeyList) -> Line<V>
        ensures { progress_means V.Kind.code result ≡ keep_list (listed keys) (progress_means V.Kind.code self) }
    {
        let largest = keys.largest();
        let older = keys.temporary_but(largest);
        Line {
            older,
            largest,
            ..self
        }
    }

    // On to the next key to remove, or past the last.
    fn remove_or_put(self) -> Line<V>
        ensures { progress_means V.Kind.code result ≡ remove_or_put (listed self.older) (progress_means V.Kind.code self) }
    {
        self.to_stage(if self.older.any() {
            Stage::RemoveOlder
        } else {
            Stage::PutStanding
        })
    }

    // The listing phase. (`after_list` differs in the last step alone. With that as a closure, its contract would be told by
    // the closure's steps, and each caller's by what it then comes to.)
    fn after_listing(self, answer: Result<Reply<V>, Refusal>) -> Line<V>
        ensures { progress_means V.Kind.code result ≡ advance_listing (answer_means V.Kind.code answer) (progress_means V.Kind.code self) }
    {
        match answer {
            Ok(Reply::Keys(keys)) => self.keep_list(keys).finished(),
            _ => self,
        }
    }

    fn after_list(self, answer: Result<Reply<V>, Refusal>) -> Line<V>
        ensures { progress_means V.Kind.code result ≡ after_list (answer_means V.Kind.code answer) (progress_means V.Kind.code self) }
    {
        match answer {
            Ok(Reply::Keys(keys)) => self.keep_list(keys).remove_or_put(),
            _ => self,
        }
    }

    // Storing a version.
    fn after_storing(self, version: Version, answer: Result<Reply<V>, Refusal>) -> Line<V>
        ensures { progress_means V.Kind.code result ≡ advance_storing (rank version) self.stage (answer_means V.Kind.code answer) (progress_means V.Kind.code self) }
    {
        let none_listed = self.largest == Key::STANDING;
        match (self.stage, answer) {
            (Stage::RemoveOlder, _) => {
                let older = self.older.rest();
                Line { older, ..self }.remove_or_put()
            }
            (Stage::PutStanding, Ok(Reply::Done)) => {
                if none_listed || self.largest < version {
                    self.to_stage(Stage::PutOwn)
                } else {
                    self.finished()
                }
            }
            (Stage::PutOwn, Ok(Reply::Done)) => {
                if none_listed {
                    self.finished()
                } else {
                    self.to_stage(Stage::RemoveLargest)
                }
            }
            (Stage::RemoveLargest, _) => self.finished(),
            (Stage::PutStanding | Stage::PutOwn, _) => self,
            _ => self.after_list(answer),
        }
    }

    // The mark: the largest key of the first list that had a temporary one.
    fn marked(self) -> Line<V>
        ensures { progress_means V.Kind.code result ≡ set_mark (progress_means V.Kind.code self) }
    {
        let mark = if self.mark == Version::NONE {
            self.largest
        } else {
            self.mark
        };
        Line { mark, ..self }
    }

    fn after_gather_list(self, answer: Result<Reply<V>, Refusal>) -> Line<V>
        ensures { progress_means V.Kind.code result ≡ gather_list (answer_means V.Kind.code answer) (progress_means V.Kind.code self) }
    {
        match answer {
            Ok(Reply::Keys(keys)) => {
                let kept = self.keep_list(keys);
                if kept.largest == Key::STANDING {
                    kept.finished_with(None)
                } else {
                    kept.marked().to_stage(Stage::GetLargest)
                }
            }
            _ => self,
        }
    }

    fn after_get_largest(self, answer: Result<Reply<V>, Refusal>) -> Line<V>
        ensures { progress_means V.Kind.code result ≡ gather_largest (answer_means V.Kind.code answer) (progress_means V.Kind.code self) }
    {
        match answer {
            Ok(Reply::Got(None)) => self.to_stage(Stage::GetStanding),
            Ok(Reply::Got(found)) => self.finished_with(found),
            _ => self,
        }
    }

    fn after_get_standing(self, answer: Result<Reply<V>, Refusal>) -> Line<V>
        ensures { progress_means V.Kind.code result ≡ gather_standing (answer_means V.Kind.code answer) (progress_means V.Kind.code self) }
    {
        match answer {
            Ok(Reply::Got(Some(pair))) => {
                if pair.version < self.mark {
                    self.to_stage(Stage::List)
                } else {
                    self.finished_with(Some(pair))
                }
            }
            Ok(Reply::Got(None)) => self.to_stage(Stage::List),
            _ => self,
        }
    }

    fn after_gathering(self, answer: Result<Reply<V>, Refusal>) -> Line<V>
        ensures { progress_means V.Kind.code result ≡ advance_gathering self.stage (answer_means V.Kind.code answer) (progress_means V.Kind.code self) }
    {
        match self.stage {
            Stage::GetLargest => self.after_get_largest(answer),
            Stage::GetStanding => self.after_get_standing(answer),
            _ => self.after_gather_list(answer),
        }
    }

    // The line once an answer is taken: free, and as far as the answer moves it. A line that is done stays so.
    pub fn advanced(self, seat: &Seat<V>, answer: Result<Reply<V>, Refusal>) -> Line<V>
        ensures { line_means V.Kind.code result ≡ record { state = lin.free; progress = advance (activity (seat_means V.Kind.code seat.now)) (answer_means V.Kind.code answer) (progress_means V.Kind.code self) } }
    {
        if self.done {
            return self.freed();
        }
        let moved = match seat.phase {
            Phase::Listing => self.after_listing(answer),
            Phase::Storing => self.after_storing(seat.version, answer),
            Phase::Gathering => self.after_gathering(answer),
            Phase::Idle | Phase::Stopped => self,
        };
        moved.freed()
    }

    // The line once the answer that it has is taken. A line that has none is freed, and stays as far as it is.
    pub fn fetched(self, seat: &Seat<V>) -> Line<V>
        ensures { line_means V.Kind.code result ≡ record { state = lin.free; progress = advance_own (activity (seat_means V.Kind.code seat.now)) (line_means V.Kind.code self).state (progress_means V.Kind.code self) } }
    {
        let transit = self.transit;
        match transit {
            Transit::Answered { answer, .. } => self.advanced(seat, answer),
            Transit::Free | Transit::Sent { .. } => self.freed(),
        }
    }

    // The count of second looks, once this line has moved on to that one.
    pub fn looks_after(&self, next: &Line<V>, looks: u32) -> u32
        ensures { result ≡ looks_after looks (progress_means V.Kind.code self.now) (progress_means V.Kind.code next.now) }
    {
        if self.stage == Stage::GetStanding && !next.done {
            looks.saturating_add(1)
        } else {
            looks
        }
    }
}
