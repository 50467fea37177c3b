// Laws of rule files.

ghost use Rattle.mlk_rules_file.specs.RuleGrammar.{AreWritten};
ghost use Rattle.mlk_rules_file.specs.RuleSections.{OneAnswer};

/// The bytes of a rule file have at most one meaning: rules, or a refusal.
pub fn one_answer()
    ensures { OneAnswer }
{}

/// Lock names, patterns and entries are read exactly as written, and from no other text.
pub fn are_written()
    ensures { AreWritten }
{}
