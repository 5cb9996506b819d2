// What holds of the templates of sites, as contracts.
ghost use Rattle.sm_template.specs.TemplateLaws.{BlockTemplatesStandOnce, LoopTemplatesStandOnce, TemplatesDependOnTwo};

/// Only what guards suggest can stand twice among templates, and templates depend on a task through
/// its declarations and its fillings alone.
pub fn templates_stand_once()
    ensures blocks { BlockTemplatesStandOnce }
    ensures loops { LoopTemplatesStandOnce }
    ensures depend { TemplatesDependOnTwo }
{}
