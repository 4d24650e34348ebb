// Reading and changing a seat's own lines, of which there is one for each provider, in the providers' order.
ghost use Rattle.std.specs.Prelude.{◌≡◌, map, length, count_by};
ghost use Rattle.std.specs.Option.{option_map};
ghost use Rattle.values.specs.Rank.{rank};
ghost use Rattle.stores.specs.Operations.{pair_means};
ghost use Rattle.protocol.specs.Lines.{restart_line};
ghost use Rattle.protocol.specs.Phases.{counts, largest_listed, newer, newest_found, version_in};
ghost use Rattle.records.specs.Means.{line_means};
ghost use Rattle.relay.specs.Sheets.{lines_mean, line_in};

use records::line::Line;
use stores::stored::Stored;
use values::kind::Kind;
use values::version::{Key, Version};

// The lines restart.
pub(crate) fn restart<V: Kind>(own: &mut [Line<V>])
    ensures { lines_mean V.Kind.code own.new ≡ map restart_line (lines_mean V.Kind.code own.old) }
{
    for line in own.iter_mut() {
        *line = line.restarted();
    }
}

// How many of the lines count as done.
pub(crate) fn count_done<V: Kind>(own: &[Line<V>]) -> usize
    ensures { result ≡ count_by (λ l. counts (line_means V.Kind.code l)) own.now }
{
    own.iter().filter(|line| line.counts()).count()
}

// The largest key that the lines which count listed.
pub(crate) fn largest_key<V: Kind>(own: &[Line<V>]) -> Key
    ensures { rank result ≡ largest_listed (line_in (lines_mean V.Kind.code own.now)) (length own.now) }
{
    let mut best = Key::STANDING;
    for line in own {
        best = line.counted_key().later(best);
    }
    best
}

// The version of a pair, or (0, 0) where there is none.
fn version_in<V: Kind>(found: Option<Stored<V>>) -> Version
    ensures { rank result ≡ version_in (option_map (pair_means V.Kind.code) found) }
{
    found.map_or(Key::STANDING, |pair| pair.version)
}

// The newer of two pairs: the first, unless the second has a larger version.
fn newer<V: Kind>(one: Option<Stored<V>>, two: Option<Stored<V>>) -> Option<Stored<V>>
    ensures { option_map (pair_means V.Kind.code) result ≡ newer (option_map (pair_means V.Kind.code) one) (option_map (pair_means V.Kind.code) two) }
{
    if version_in(one) < version_in(two) {
        two
    } else {
        one
    }
}

// The pair of the largest version that the lines which count found; among equals the lowest provider's.
pub(crate) fn newest<V: Kind>(own: &[Line<V>]) -> Option<Stored<V>>
    ensures { option_map (pair_means V.Kind.code) result ≡ newest_found (line_in (lines_mean V.Kind.code own.now)) (length own.now) }
{
    let mut best = None;
    for line in own {
        best = newer(best, line.counted_pair());
    }
    best
}
