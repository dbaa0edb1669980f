// The one interface to a covering chart.
ghost use Rattle.std.specs.Prelude.{◌≡◌};
ghost use Rattle.charts.specs.Grids.{Grid, Small};

use orders::CostOrder;

// Asking changes nothing, and the answers are those of the meaning, every time.
pub trait Chart {
    // columns, needs, and which column holds which need
    ghost grid: { Self → Grid };

    // The number of columns.
    fn columns(&self) -> usize
        ensures { result ≡ (grid self.now).width };

    // The number of needs.
    fn needs(&self) -> usize
        ensures { result ≡ (grid self.now).wanted };

    // Whether a column holds a need.
    fn holds(&self, column: usize, need: usize) -> bool
        ensures { result ≡ (grid self.now).held column need };

    // What a column costs.
    fn price<O: CostOrder>(&self, order: &O, column: usize) -> O::Total
        ensures { O.CostOrder.exact order.now result ≡ (O.CostOrder.meaning order.now).price ((grid self.now).term column) };

    // a chart has at most 256 columns and 1,280 needs
    ghost small: { (c : Self) → Small (grid c) };
}
