// Networks of points and weighted edges: definitions in specs/, and in proofs/ the theorems about walks, deadlines and
// events that other crates cite. Nothing here runs, and nothing here knows of files or tables; a board is only what it
// says: which points are done, and when.

#![tactic(auto)]
