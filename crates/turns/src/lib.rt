//! Shared words that turns change step by step, in any order.
#![tactic(auto)]

mod laws;
mod link_work;
mod move_work;
mod open;
mod post;
mod receipt;
mod rule;
mod shared_words;
mod sharing;
mod starts;
mod strip_work;
mod touch_work;
mod turn;
mod view;
mod watcher;
mod work;

pub use laws::{the_rule_is_kept, watchers_keep_the_rule};
pub use open::{NotAll, Open, Unended};
pub use receipt::Receipt;
pub use rule::{Fixed, Rule};
pub use sharing::Indexes;
pub use turn::{Progress, Turn};
pub use view::{Opening, View};
pub use watcher::Watcher;
