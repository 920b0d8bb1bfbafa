// One call of the editor on lent memory, and lists of calls, in definitions alone: specs/Step.antt and specs/Run.antt. The edits are proved equal to them.
#![tactic(auto)]
