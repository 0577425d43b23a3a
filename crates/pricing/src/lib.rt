// Which source prices what: the sale by its rule, and the standard choice for a site.
#![tactic(auto)]

mod choice;
mod sale;

pub use choice::StandardChoice;
pub use sale::Sale;
