//! The settings of the controlled links.
ghost use Rattle.std.specs.Prelude.{◌≡◌, ◌<◌, All, false, length};
ghost use Rattle.trace_replay.specs.internal.Moving.{settings_at};

use exact_fraction::frac::Frac;
use rule_types::LinkState;

/// Copies the settings of the links at some places, where a link changed.
pub(crate) fn copy_changed(
    changed: bool,
    places: &[usize],
    links: &[LinkState],
    settings: &mut [Frac],
)
    requires within { All (λ place. place < length links.now) places.now }
    requires each { length settings.old ≡ length places.now }
    requires same { changed ≡ false → settings.old ≡ settings_at links.now places.now }
    ensures { settings.new ≡ settings_at links.now places.now }
{
    if changed {
        copy_settings(places, links, settings);
    }
}

/// Copies the settings of the links at some places.
pub(crate) fn copy_settings(places: &[usize], links: &[LinkState], settings: &mut [Frac])
    requires within { All (λ place. place < length links.now) places.now }
    requires each { length settings.old ≡ length places.now }
    ensures { settings.new ≡ settings_at links.now places.now }
{
    for at in 0..places.len() {
        let link = &links[places[at]];
        let setting = link.setting;
        settings[at] = setting;
    }
}
