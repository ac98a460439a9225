//! A law of settings, over the definitions alone.
ghost use Rattle.std.specs.Prelude.{◌≡◌, List};
ghost use Rattle.clap.specs.Words.{Text};
ghost use Rattle.command_line.specs.declared.meaning.Settings.{Settings};
ghost use Rattle.command_line.specs.Settings.{HasSettings};

/// Words have one list of settings at most.
pub fn one_settings()
    ensures { (words : List Text) (s t : Settings) →
        HasSettings words s → HasSettings words t → s ≡ t }
{}
