//! Laws of the definitions, and worked examples: each function is empty, and its contract is the
//! law, or what was worked out by hand.
ghost use Rattle.rule_parser.specs.examples.Files.{AreProjects, AreRefusals};
ghost use Rattle.std.specs.Prelude.{All, List, IfOk};
ghost use Rattle.inp_text.specs.Sections.{Line};
ghost use Rattle.object_index.specs.Holding.{HoldsObjects};
ghost use Rattle.rule_types.specs.Tables.{HoldsTables};
ghost use Rattle.rule_types.specs.WellFormed.{WellFormed, IsRoutingStep};
ghost use Rattle.network_lines.specs.Bounds.{IsLinkData};
ghost use Rattle.network_lines.specs.declared.network.Network.{Network};
ghost use Rattle.network_lines.specs.declared.options.OptionSet.{OptionSet};
ghost use Rattle.rule_parser.specs.Controls.{draft_rules};
ghost use Rattle.rule_parser.specs.Projects.{rules_with, project_of};
ghost use Rattle.rule_parser.specs.declared.draft.Draft.{Draft};
ghost use Rattle.rule_parser.specs.internal.Fitting.{IsDone, AreCounted};
ghost use Rattle.rule_parser.specs.examples.Lines.{AreConditions};
ghost use Rattle.rule_parser.specs.examples.Lines.{AreActions, AreNames, AreStatements};
ghost use Rattle.rule_parser.specs.examples.Lines.{AreFull};

/// What some conditions are read as.
pub fn condition_examples()
    ensures { AreConditions }
{}

/// What some actions are read as.
pub fn action_examples()
    ensures { AreActions }
{}

/// Which names can be declared beside some others.
pub fn name_examples()
    ensures { AreNames }
{}

/// What some statements add to the rules before them.
pub fn statement_examples()
    ensures { AreStatements }
{}

/// How many rules there may be.
pub fn limit_examples()
    ensures { AreFull }
{}

/// The projects of some files, and the first refusals of others.
pub fn file_examples()
    ensures projects { AreProjects }
    ensures refusals { AreRefusals }
{}

/// The rules of a file whose control lines are read are well formed, and there are the objects that
/// they name.
pub fn whole_rules()
    ensures whole { (options : OptionSet) (network : Network) (draft : Draft)
        → IsDone network.objects draft
        → IsRoutingStep options.routing_step → All IsLinkData network.links
        → AreCounted (rules_with options network draft.names (draft_rules draft))
        → WellFormed (rules_with options network draft.names (draft_rules draft)) }
    ensures held { (options : OptionSet) (network : Network) (draft : Draft)
        → IsDone network.objects draft
        → HoldsObjects network.objects
        (rules_with options network draft.names (draft_rules draft)) }
{}

/// The tables of a project hold each curve and each series that its rules name, with points that a
/// table can have.
pub fn tables_of_projects()
    ensures held { (file : List Line) → IfOk (project_of file)
        (λ project. HoldsTables project.tables project.rules.rules) }
{}
