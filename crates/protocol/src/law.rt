ghost use Rattle.protocol.specs.Law.{Law};

// Does nothing. Its contract is the law of the register: whatever the seats do, every list of calls on a relay that was
// opened over empty providers is lawful. It holds for every number of providers from 1 on, every number of seats up to
// 65,534, all capacities from seats plus two on, and all values.
pub fn register_is_lawful()
    ensures { Law }
{}
