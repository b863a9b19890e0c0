//! Laws of the definitions, and worked examples: each function is empty, and its contract is the
//! law, or what was worked out by hand.
ghost use Rattle.std.specs.Prelude.{ℕ, List, All, IfOk};
ghost use Rattle.exact_fraction.specs.Number.{zero};
ghost use Rattle.exact_fraction.specs.Order.{◌≤ℚ◌};
ghost use Rattle.inp_text.specs.Merging.{SectionLine};
ghost use Rattle.inp_text.specs.declared.source_line.SourceLine.{SourceLine};
ghost use Rattle.rule_types.specs.WellFormed.{IsTimeValue, IsRate, IsRoutingStep};
ghost use Rattle.network_lines.specs.Bounds.{IsLinkData};
ghost use Rattle.network_lines.specs.Objects.{no_network, network_from};
ghost use Rattle.network_lines.specs.Options.{no_options, options_from};
ghost use Rattle.network_lines.specs.Values.{value_read};
ghost use Rattle.network_lines.specs.declared.value.ValueKind.TheVariants.{Status, Time, Setting};
ghost use Rattle.network_lines.specs.declared.value.ValueKind.TheVariants.{TravelTime};
ghost use Rattle.network_lines.specs.examples.Lines.{AreOptions, AreObjectLines};

/// What some options are read as.
pub fn option_examples()
    ensures { AreOptions }
{}

/// What some lines of objects are read as.
pub fn object_examples()
    ensures { AreObjectLines }
{}

/// What values of a kind are: a time is a time value, a setting and a status are at least 0, and
/// the time to open or close is a rate.
pub fn values()
    ensures time { (item : List ℕ) → IfOk (value_read Time item) IsTimeValue }
    ensures status { (item : List ℕ) → IfOk (value_read Status item) (λ q. zero ≤ℚ q) }
    ensures setting { (item : List ℕ) → IfOk (value_read Setting item) (λ q. zero ≤ℚ q) }
    ensures travel_time { (item : List ℕ) → IfOk (value_read TravelTime item) IsRate }
{}

/// The routing step of options is a routing step, and of each link of a network the initial setting
/// and the rate are in their bounds; there is one entry for each link.
pub fn bounds()
    ensures routing_step { (lines : List SourceLine)
        → IsRoutingStep (options_from no_options lines).routing_step }
    ensures links { (lines : List SectionLine)
        → All IsLinkData (network_from no_network lines).links }
{}
