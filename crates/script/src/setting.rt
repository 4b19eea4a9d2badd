//! The lines that set how a script's connections are served, and by what.

mod setting_line;
mod setting_text;
mod settings;

pub use setting_line::SettingLine;
pub(crate) use setting_text::read_setting_line;
pub use settings::Settings;
