//! The first words of set-up lines.

ghost use Rattle.std.specs.Prelude.{◌≡◌};
ghost use Rattle.dfr_script.specs.Settings as spec;

use comtrade_values::is_word;

/// What a line before `go` sets.
#[derive(Clone, Copy, PartialEq, Eq)]
pub(crate) enum Setting {
    Station,
    Device,
    Analog,
    Status,
    Freq,
    Rate,
    Start,
    Limits,
    Rules,
}

/// The setting that the word names, if any.
#[tactic(auto, unfolding(crate::specs::Settings::setting))]
pub(crate) fn setting_of(word: &[u8]) -> Option<Setting>
    ensures { result ≡ spec.setting word.now }
{
    if is_word(word, "station") {
        Some(Setting::Station)
    } else if is_word(word, "device") {
        Some(Setting::Device)
    } else if is_word(word, "analog") {
        Some(Setting::Analog)
    } else if is_word(word, "status") {
        Some(Setting::Status)
    } else if is_word(word, "freq") {
        Some(Setting::Freq)
    } else if is_word(word, "rate") {
        Some(Setting::Rate)
    } else if is_word(word, "start") {
        Some(Setting::Start)
    } else if is_word(word, "limits") {
        Some(Setting::Limits)
    } else if is_word(word, "rules") {
        Some(Setting::Rules)
    } else {
        None
    }
}
