// Providers that are lost, the count of second looks, and the end of a relay.
ghost use Rattle.std.specs.Prelude.{◌≡◌, true, is_err};
ghost use Rattle.std.specs.Option.{option_map};
ghost use Rattle.values.specs.Refusals.{numbered, refusal_number};
ghost use Rattle.protocol.specs.Answers.{lose as lose_call};
ghost use Rattle.relay.specs.RelayState.{relay_means, relay_step, looks_answer, bank_of, inner_of};
ghost use Rattle.relay.specs.Sheets.{acknowledged};

use crate::relay::Relay;
use banks::bank::Bank;
use records::line::Line;
use records::seat::Seat;
use values::kind::Kind;
use values::refusal::Refusal;

impl<V: Kind, B: Bank<V>> Relay<V, B> {
    // A provider is lost for good. Answers that it has given can still be fetched.
    pub fn lose(
        &mut self,
        seats: &[Seat<V>],
        lines: &[Line<V>],
        provider: usize,
    ) -> Result<(), Refusal>
        ensures step { (relay_means V.Kind.code B.Bank.row self.new seats.now lines.now, acknowledged result) ≡ relay_step (relay_means V.Kind.code B.Bank.row self.old seats.now lines.now) (lose_call provider) }
        ensures refusal { is_err result ≡ true → inner_of self.new ≡ inner_of self.old }
        ensures bank { bank_of self.new ≡ bank_of self.old }
    {
        let i = self.find_provider(seats.len(), lines.len(), provider)?;
        if self.inner.is_lost(i) {
            return Err(Refusal::ProviderLost);
        }
        self.inner.lose(i);
        Ok(())
    }

    // How often a gathering line had to look a second time.
    pub fn looks(&self) -> Result<u32, Refusal>
        ensures { numbered result ≡ looks_answer (option_map refusal_number (inner_of self.now).refused) (inner_of self.now).looks }
    {
        match self.inner.refused {
            Some(refusal) => Err(refusal),
            None => Ok(self.inner.looks),
        }
    }

    // Ends the relay and gives the bank back.
    pub fn shut(self) -> B
        ensures { result ≡ bank_of self }
    {
        let Relay {
            bank,
            inner: _,
            kind: _,
        } = self;
        bank
    }
}
