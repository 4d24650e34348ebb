// A request arrives at its provider.
ghost use Rattle.std.specs.Prelude.{◌≡◌, ◌+◌, ◌-◌, ◌*◌, ◌<◌, ◌≤◌, true, length, drop, is_none, is_err, OnOk, slice_index_or, slice_set};
ghost use Rattle.stores.specs.Provider.{keys};
ghost use Rattle.banks.specs.Row.{has, absent};
ghost use Rattle.protocol.specs.Answers.{land as land_call};
ghost use Rattle.protocol.specs.Requests.{reply, served};
ghost use Rattle.records.specs.Means.{listed, answer_means, line_means, request_means};
ghost use Rattle.relay.specs.BankSteps.{RequestStep, LandStep, BankStep};
ghost use Rattle.relay.specs.Effects.{LineWritten, Landed};
ghost use Rattle.relay.specs.RelayState.{relay_means, relay_step, lost_flags, bank_of, inner_of};
ghost use Rattle.relay.specs.Sheets.{acknowledged};

use crate::relay::Relay;
use banks::bank::Bank;
use records::key_list::KeyList;
use records::line::{Line, Reply, Request, Transit};
use records::seat::Seat;
use stores::stored::Stored;
use values::kind::Kind;
use values::refusal::Refusal;
use values::version::Key;

// The keys of provider i, of which a line keeps at most 32. (That there is a provider i, and that its keys fit, is asked for
// here and in `ask`: a type for such a number would borrow the bank, which `ask` changes.)
fn ask_keys<V: Kind, B: Bank<V>>(bank: &B, i: usize) -> KeyList
    requires has { has i (B.Bank.row bank.now) ≡ true }
    requires fits { length (slice_index_or (B.Bank.row bank.now) (i - 1) absent).cells ≤ 32 }
    ensures { listed result ≡ keys (slice_index_or (B.Bank.row bank.now) (i - 1) absent) }
{
    let mut keys = [Key::STANDING; 32];
    let count = bank.list(i, &mut keys).unwrap();
    KeyList::of(keys, count)
}

// Asks provider i of a bank.
fn ask<V: Kind, B: Bank<V>>(
    bank: &mut B,
    i: usize,
    request: Request<V>,
) -> Result<Reply<V>, Refusal>
    requires has { has i (B.Bank.row bank.old) ≡ true }
    requires fits { length (slice_index_or (B.Bank.row bank.old) (i - 1) absent).cells ≤ 32 }
    ensures answer { answer_means V.Kind.code result ≡ reply (request_means V.Kind.code request) (slice_index_or (B.Bank.row bank.old) (i - 1) absent) }
    ensures after { B.Bank.row bank.new ≡ slice_set (B.Bank.row bank.old) (i - 1) (served (request_means V.Kind.code request) (slice_index_or (B.Bank.row bank.old) (i - 1) absent)) }
    ensures once { RequestStep B.Bank.puts B.Bank.removes i (request_means V.Kind.code request) (answer_means V.Kind.code result) bank.old bank.new }
{
    match request {
        Request::List => Ok(Reply::Keys(ask_keys::<V, B>(bank, i))),
        Request::Get(key) => Ok(Reply::Got(bank.get(i, key).unwrap())),
        Request::Put(key, Stored { version, value }) => {
            bank.put(i, key, version, value).map(|()| Reply::Done)
        }
        Request::Remove(key) => {
            bank.remove(i, key).unwrap();
            Ok(Reply::Done)
        }
    }
}

impl<V: Kind, B: Bank<V>> Relay<V, B> {
    // A line's request is carried out at its provider, and the line has its answer. The seat may have stopped.
    pub fn land(
        &mut self,
        seats: &[Seat<V>],
        lines: &mut [Line<V>],
        seat: usize,
        provider: usize,
    ) -> Result<(), Refusal>
        ensures step { (relay_means V.Kind.code B.Bank.row self.new seats.now lines.new, acknowledged result) ≡ relay_step (relay_means V.Kind.code B.Bank.row self.old seats.now lines.old) (land_call seat provider) }
        ensures beyond { drop ((inner_of self.old).seats * length (B.Bank.row (bank_of self.old))) lines.new ≡ drop ((inner_of self.old).seats * length (B.Bank.row (bank_of self.old))) lines.old }
        ensures others { OnOk result (LineWritten (length (B.Bank.row (bank_of self.old))) seat provider lines.old lines.new) }
        ensures refusal { is_err result ≡ true → (lines.new ≡ lines.old) × (bank_of self.new ≡ bank_of self.old) }
        ensures bank { BankStep B.Bank.puts B.Bank.removes (relay_means V.Kind.code B.Bank.row self.old seats.now lines.old) (land_call seat provider) (bank_of self.old) (bank_of self.new) }
        ensures inner { inner_of self.new ≡ inner_of self.old }
    {
        let at = self.find(seats.len(), lines.len(), seat, provider)?;
        self.land_line(&mut lines[at.seat.start + at.provider], at.provider)
    }

    // A line's request is carried out at the provider of place i, and the line has its answer.
    fn land_line(&mut self, line: &mut Line<V>, i: usize) -> Result<(), Refusal>
        requires accepted { is_none (inner_of self.old).refused ≡ true }
        requires provider { i < length (B.Bank.row (bank_of self.old)) }
        ensures landed { Landed i (lost_flags (inner_of self.old)) (B.Bank.row (bank_of self.old)) (line_means V.Kind.code line.old) (acknowledged result) (B.Bank.row (bank_of self.new)) (line_means V.Kind.code line.new) }
        ensures refusal { is_err result ≡ true → (line.new ≡ line.old) × (bank_of self.new ≡ bank_of self.old) }
        ensures bank { LandStep B.Bank.puts B.Bank.removes (i + 1) (line_means V.Kind.code line.old).state (slice_index_or (B.Bank.row (bank_of self.old)) i absent) (acknowledged result) (bank_of self.old) (bank_of self.new) }
        ensures inner { inner_of self.new ≡ inner_of self.old }
    {
        if self.inner.is_lost(i) {
            return Err(Refusal::ProviderLost);
        }
        let transit = line.transit;
        match transit {
            Transit::Free | Transit::Answered { .. } => Err(Refusal::LineNotSent),
            Transit::Sent { request, .. } => {
                let answer = ask::<V, B>(&mut self.bank, i + 1, request);
                *line = line.landed(answer);
                Ok(())
            }
        }
    }
}
