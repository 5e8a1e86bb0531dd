//! Laws of the definitions that the contracts cite, as contracts of calls that change nothing.

ghost use Rattle.action_table.specs.Laws.{DefsMeanOnce, LinkAnswersOnce, LinkedNamesStand, TableMeansOnce};

/// Implementations mean one table at most, have one place at most where they are refused, and never
/// both.
pub fn table_means_once()
    ensures { TableMeansOnce }
{}

/// Where linking gives definitions, something stands for each name that the machines and the table
/// use.
pub fn linked_names_stand()
    ensures { LinkedNamesStand }
{}

/// Linking has one fault at most, want of memory apart, and never both a fault and definitions.
pub fn link_answers_once()
    ensures { LinkAnswersOnce }
{}

/// A definitions text is refused for one fault at most, and never means definitions too.
pub fn defs_mean_once()
    ensures { DefsMeanOnce }
{
    ordered_json::laws::meaning_is_unique();
    ordered_json::laws::meaning_excludes_fault();
    ordered_json::laws::fault_is_unique();
    machine_json::laws::machine_means_once();
    table_means_once();
    link_answers_once();
}
