// Where a transaction stands among those of a client, by its number.
ghost use Rattle.std.specs.Prelude.{◌≡◌, not, map, filter, position, Some, None};
ghost use Rattle.std.specs.List.{find};
ghost use Rattle.std.specs.Option.{option_copied};
ghost use Rattle.scope_desk.specs.Rising.{IsRisingFrom};
ghost use Rattle.client_seats.specs.ClientStates.{is_tx, started_if};
ghost use Rattle.client_parts.specs.Holding.{begun_seen};
ghost use Rattle.client_parts.specs.Standing.{may_start_of, started_of, waits_of, begins_of};

use crate::begun::BegunBody;
use crate::held_txs::HeldTx;
use std::collections::VecDeque;

/// Where the transaction of this number stands among these, which stand by number. It halves.
pub(crate) fn place_of(txs: &VecDeque<HeldTx>, number: u64) -> Option<usize>
    requires { IsRisingFrom 0 (map (λ tx. tx.number) txs.now.items) }
    ensures { result ≡ position (is_tx number) txs.now.items }
{
    let mut low = 0;
    let mut high = txs.len();
    while low < high {
        let middle = low + (high - low) / 2;
        let here = txs[middle].number();
        if here == number {
            return Some(middle);
        }
        if here < number {
            low = middle + 1;
        } else {
            high = middle;
        }
    }
    None
}

/// Takes the transaction of this number out. The shorter side moves.
pub fn take_out(txs: &mut VecDeque<HeldTx>, number: u64) -> Option<HeldTx>
    requires { IsRisingFrom 0 (map (λ tx. tx.number) txs.old.items) }
    ensures given { result ≡ find (is_tx number) txs.old.items }
    ensures left { txs.new.items ≡ filter (λ tx. not (is_tx number tx)) txs.old.items }
{
    match place_of(txs, number) {
        Some(place) => txs.remove(place),
        None => None,
    }
}

/// Whether the transaction of this number is one that waits for its start and may begin.
pub fn can_start(txs: &VecDeque<HeldTx>, number: u64) -> bool
    requires { IsRisingFrom 0 (map (λ tx. tx.number) txs.now.items) }
    ensures { result ≡ may_start_of (find (is_tx number) txs.now.items) }
{
    match tx_of(txs, number) {
        Some(tx) => tx.can_start(),
        None => false,
    }
}

/// Whether it has started.
pub fn is_started(txs: &VecDeque<HeldTx>, number: u64) -> bool
    requires { IsRisingFrom 0 (map (λ tx. tx.number) txs.now.items) }
    ensures { result ≡ started_of (find (is_tx number) txs.now.items) }
{
    match tx_of(txs, number) {
        Some(tx) => tx.is_started(),
        None => false,
    }
}

/// Whether it waits for its start.
pub fn waits(txs: &VecDeque<HeldTx>, number: u64) -> bool
    requires { IsRisingFrom 0 (map (λ tx. tx.number) txs.now.items) }
    ensures { result ≡ waits_of (find (is_tx number) txs.now.items) }
{
    match tx_of(txs, number) {
        Some(tx) => !tx.is_started(),
        None => false,
    }
}

/// The transaction of this number.
pub(crate) fn tx_of(txs: &VecDeque<HeldTx>, number: u64) -> Option<&HeldTx>
    requires { IsRisingFrom 0 (map (λ tx. tx.number) txs.now.items) }
    ensures { option_copied result ≡ find (is_tx number) txs.now.items }
{
    match place_of(txs, number) {
        Some(place) => txs.get(place),
        None => None,
    }
}

/// The transaction of this number starts; what it begins with.
pub fn start(txs: &mut VecDeque<HeldTx>, number: u64) -> Option<BegunBody>
    requires { IsRisingFrom 0 (map (λ tx. tx.number) txs.old.items) }
    ensures started { txs.new.items ≡ map (started_if number) txs.old.items }
    ensures begun { begun_seen result ≡ begins_of (find (is_tx number) txs.old.items) }
{
    match place_of(txs, number) {
        Some(place) => {
            let tx = &mut txs[place];
            tx.start()
        }
        None => None,
    }
}
