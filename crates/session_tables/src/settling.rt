//! Keeps the values that a place showed, so that clients are notified of what has changed since.
ghost use Rattle.std.specs.Prelude.{◌≡◌, OnErr, OnOk, length};
ghost use Rattle.shared_rows.specs.Table.{IsPlace};
ghost use Rattle.property_store.specs.Store.{IsSound};
ghost use Rattle.property_store.specs.Table.{StoresView, store_at};
ghost use Rattle.binding_values.specs.Graph.{no_graph};
ghost use Rattle.binding_graph.specs.Step.{InStep};
ghost use Rattle.binding_graph.specs.Table.{graph_at, with_graph};
ghost use Rattle.session_tables.specs.Bound.{all_closed};
ghost use Rattle.session_tables.specs.Settled.{AllSettled, IsNoted, is_idle};

use binding_graph::Bindings;
use property_store::Stores;
use std::alloc::AllocError;

/// Whether nothing is bound and no group is open. The contract also says that the store is sound, as every store
/// is.
pub(crate) fn is_idle(stores: &Stores, bindings: &Bindings, place: usize) -> bool
    requires store { IsPlace stores.now.shelves.table place }
    requires graph { IsPlace bindings.now.graphs place }
    ensures idle { result ≡ is_idle (graph_at bindings.now.graphs place) }
    ensures sound { IsSound (store_at stores.now.shelves place) }
{
    let _ = stores.count(place);
    bindings.count(place) == 0 && bindings.depth(place) == 0
}

/// Keeps what the properties of a place show, before they are changed. Where something is bound, that has been kept
/// since the last change.
pub(crate) fn note(
    stores: &mut Stores,
    bindings: &mut Bindings,
    place: usize,
) -> Result<(), AllocError>
    requires store { IsPlace stores.old.shelves.table place }
    requires graph { IsPlace bindings.old.graphs place }
    requires settled { AllSettled stores.old bindings.old }
    ensures noted { OnOk result (IsNoted (store_at stores.new.shelves place) (graph_at bindings.new.graphs place)) }
    ensures stores { stores.new.shelves ≡ stores.old.shelves }
    ensures graphs { all_closed bindings.new.graphs ≡ all_closed bindings.old.graphs }
    ensures none { OnErr result (length (graph_at bindings.old.graphs place).bindings ≡ 0) }
    ensures settled { AllSettled stores.new bindings.new }
{
    if bindings.count(place) == 0 {
        bindings.settle(place, stores, None)?;
    }
    Ok(())
}

/// Clears the bindings of a place if memory ran out while it was settled: what it showed may be lost then.
#[inline(always)]
pub(crate) fn or_clear<T>(
    bindings: &mut Bindings,
    place: usize,
    settled: Result<T, AllocError>,
) -> Result<T, AllocError>
    requires { IsPlace bindings.old.graphs place }
    ensures same { result ≡ settled }
    ensures ok { OnOk result (bindings.new.graphs ≡ bindings.old.graphs) }
    ensures cleared { OnErr result (bindings.new.graphs ≡ with_graph bindings.old.graphs place no_graph) }
    ensures step { (stores : StoresView) → InStep stores bindings.old → InStep stores bindings.new }
{
    if settled.is_err() {
        bindings.clear(place);
    }
    settled
}
