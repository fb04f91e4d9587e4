// The owner's second and third property, stated (specs/Second.antt, specs/Third.antt) and proved of the rules of blocks and frames,
// document 01's starred rows, what fill ahead of the start changes (specs/LeadingFill.antt), and what frames of whole bytes keep
// (specs/WholeBytes.antt). No functions: what is proved of the rules holds of the calls, whose contracts are equations from the same
// rules.
#![tactic(auto)]
