ghost use Rattle.search.specs.Examples.{WorkedSearches, SlotsAsked};

use blocks::sink::Sink;

// Searches worked out. Each function does nothing; its contract is the examples.

// Four rules that no profile meets, with the lines that show it, and a problem with nothing to meet.
pub fn worked_searches()
    ensures { WorkedSearches }
{}

// 192 slots are refused, 193 serve.
pub fn slots_asked<K: Sink>()
    ensures { SlotsAsked K.Sink.step }
{}
