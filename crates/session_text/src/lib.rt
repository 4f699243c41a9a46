// A feed whose new bytes stand behind the held ones in one text. No exported function has a `requires`.
#![tactic(auto)]

mod lining;
mod taking;

pub use spec_session::session_text::TextFed;
pub use taking::take_text;
