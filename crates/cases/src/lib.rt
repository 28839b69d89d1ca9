// The starred cases of document 01, "Haul to one pond", as one table: see specs/. There is no code here.

#![tactic(auto)]
