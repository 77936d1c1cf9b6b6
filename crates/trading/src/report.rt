// What a call reports.

#[derive(Clone, Copy)]
pub enum ReportLine {
    // the numbers of the buy and the sell that traded
    Trade {
        buy: u32,
        sell: u32,
        price: u32,
        quantity: u32,
    },
    // an order or a stop, and the quantity that was taken off it
    Lapse {
        number: u32,
        quantity: u32,
    },
}
