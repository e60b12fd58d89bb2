// The case book's starred cases: specs/CaseBook.antt has them as one table, proved against the definitions that the contracts cite. There
// is no code here.
#![tactic(auto)]
