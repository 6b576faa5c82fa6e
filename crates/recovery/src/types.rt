use model::Station;
use order::Order;

// What a start finds in a memory: the number of its run, the order, and the stations, each idle.
#[derive(Drop)]
pub struct Recovered {
    pub run: u64,
    pub order: Order,
    pub stations: [Station; 8],
}
