ghost use Rattle.stores.specs.MapLaw.{MapLaw};

// Does nothing. Its contract is the law of the map: what a get answers after a put and after a remove, of every provider.
pub fn map_is_lawful()
    ensures { MapLaw }
{}
